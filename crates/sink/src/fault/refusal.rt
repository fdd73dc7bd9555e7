ghost use Rattle.std.specs.Prelude.{◌≡◌};
ghost use Rattle.sink.specs.Faults.{Denial, here, layer_denial};
ghost use Rattle.sink.specs.declared.fault.LayerFault.TheVariants.{Below};

use crate::fault::{Cause, LayerFault};

// A fault as its caller sees it: the number of its cause, and how many layers passed it up.
pub trait Refusal: Copy {
    ghost denial: { Self → Denial };

    fn number(&self) -> u8
        ensures { result ≡ (denial self.now).number };

    fn depth(&self) -> u8
        ensures { result ≡ (denial self.now).depth };
}

impl Refusal for Cause {
    ghost denial = { here };

    fn number(&self) -> u8 {
        *self as u8
    }

    fn depth(&self) -> u8 {
        0
    }
}

impl<F: Refusal> Refusal for LayerFault<F> {
    ghost denial = { layer_denial F.Refusal.denial };

    fn number(&self) -> u8 {
        match self {
            LayerFault::Own(cause) => cause.number(),
            LayerFault::Below(fault) => fault.number(),
        }
    }

    fn depth(&self) -> u8 {
        match self {
            LayerFault::Own(_) => 0,
            LayerFault::Below(fault) => fault.depth().saturating_add(1),
        }
    }
}

// The fault of below, carried up whole.
impl<F: Refusal> From<F> for LayerFault<F> {
    ghost from_gives = { λ below fault. fault ≡ Below below };

    fn from(below: F) -> LayerFault<F> {
        LayerFault::Below(below)
    }
}
