use crate::zones::Zones;

// Sends the starts of its channel to a low or a high one, by their key. Items 0 to 3 are its channel, its key, its low and
// its high channel. What it does not name goes below unchanged.
#[derive(Drop)]
pub struct Split<S> {
    below: S,
    zones: Zones,
}

pub mod calls;
