// Why a call is denied, as the sink that denies it says so, each with its number.
#[derive(Clone, Copy, PartialEq, Eq, Debug)]
pub enum Cause {
    // The channel, the key or the velocity is out of range.
    OutOfRange = 1,
    // All 128 tickets are out.
    AllOut = 2,
    // The lines or bytes are used up, or reserved for notes that still sound.
    NoSpace = 3,
    // The ticket is not owed.
    NotOwed = 4,
    // The channel or the value of a controller message is out of range, or no sink listens to the controller.
    TellOutOfRange = 5,
    // A setting was sent deeper than there are layers.
    NoLayer = 6,
    // The layer has no such item.
    NoSuchItem = 7,
    // The value lies outside the item's range.
    ValueOutOfRange = 8,
}

// Why a layer denies a call: by a cause of its own, or since the sink below denied it. The fault of below is carried whole.
#[derive(Clone, Copy, PartialEq, Eq, Debug)]
pub enum LayerFault<F> {
    Own(Cause),
    Below(F),
}

pub mod refusal;
pub mod wording;
