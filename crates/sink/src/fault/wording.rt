ghost use Rattle.std.specs.Prelude.{◌≡◌, Some};
ghost use Rattle.sink.specs.Wording.{wording, from_below};

use crate::fault::{Cause, LayerFault};
use std::fmt;

// A cause in words that a fitter can read.
fn words(cause: Cause) -> &'static str
    ensures { result.now ≡ wording cause }
{
    match cause {
        Cause::OutOfRange => "channel, key or velocity out of range",
        Cause::AllOut => "all 128 tickets are out",
        Cause::NoSpace => "lines or bytes used up or reserved",
        Cause::NotOwed => "ticket not owed",
        Cause::TellOutOfRange => "controller message out of range",
        Cause::NoLayer => "no layer at this depth",
        Cause::NoSuchItem => "no such item",
        Cause::ValueOutOfRange => "value outside the item's range",
    }
}

impl fmt::Display for Cause {
    ghost output = { λ c. Some (wording c) };

    fn fmt<W: fmt::Write>(&self, f: &mut fmt::Formatter<W>) -> fmt::Result {
        f.write_str(words(*self))
    }
}

impl<F: fmt::Display> fmt::Display for LayerFault<F> {
    ghost output = { from_below F.Display.output };

    fn fmt<W: fmt::Write>(&self, f: &mut fmt::Formatter<W>) -> fmt::Result {
        match self {
            LayerFault::Own(cause) => f.write_str(words(*cause)),
            LayerFault::Below(fault) => write!(f, "below: {fault}"),
        }
    }
}
