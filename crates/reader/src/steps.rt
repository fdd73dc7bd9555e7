// What the reader's own helpers hand to one another.
ghost use Rattle.std.specs.Prelude.{◌≡◌, ◌<◌, true, IsNone, IfSome};
ghost use Rattle.std.proofs.Props.{props};
ghost use Rattle.reader.specs.Ranges.{Ranged, Ranged-prop, bare};

use crate::items::{Item, Message};

// A byte 00h to 7Fh.
#[derive(Clone, Copy)]
pub(crate) struct DataByte {
    pub(crate) value: u8,
    ghost data: { value < 0x80 },
}

// The messages of one byte, at most two. A second one has no number.
#[derive(Clone, Copy)]
pub(crate) struct Given {
    pub(crate) first: Option<Message>,
    pub(crate) second: Option<Message>,
    ghost ordered: { IsNone first → IsNone second },
    ghost in_range: { IfSome first Ranged } by { Prim.hlevel (props, Ranged-prop) },
    ghost second_bare: { IfSome second (λ x. bare x ≡ true) } by { Prim.hlevel props },
}

impl Given {
    ghost use Rattle.std.specs.Prelude.{[], ◌∷◌};
    ghost use Rattle.reader.specs.Steps.{given, optional};

    pub(crate) fn none() -> Given
        ensures { given result ≡ [] }
    {
        Given {
            first: None,
            second: None,
        }
    }

    pub(crate) fn one(message: Message) -> Given
        requires { Ranged message }
        ensures { given result ≡ message ∷ [] }
    {
        Given {
            first: Some(message),
            second: None,
        }
    }

    // A message, and then perhaps another.
    pub(crate) fn two(first: Message, second: Option<Message>) -> Given
        requires first { Ranged first }
        requires second { IfSome second (λ x. bare x ≡ true) }
        ensures { given result ≡ first ∷ optional second }
    {
        Given {
            first: Some(first),
            second,
        }
    }
}

// What one byte gave, or a run of an exclusive's data bytes, and how many bytes that were.
#[derive(Clone, Copy)]
pub(crate) struct Taken<'p> {
    pub(crate) first: Option<Item<'p>>,
    pub(crate) second: Option<Item<'p>>,
    pub(crate) count: usize,
}
