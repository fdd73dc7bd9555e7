ghost use Rattle.quota.specs.Orders.{all_level, softer};
ghost use Rattle.std.proofs.Common.{rules};

use crate::order::Order;
use roll::note::Note;

// All notes level: the oldest is hushed first.
#[derive(Clone, Copy, Debug)]
pub struct Oldest;

// The lower velocity first, and of level ones the oldest.
#[derive(Clone, Copy, Debug)]
pub struct Softest;

impl Order for Oldest {
    ghost before = { λ o m n. all_level m n };

    ghost total = { Prim.search rules };

    ghost carries = { Prim.search rules };

    fn goes_before(&self, _one: Note, _other: Note) -> bool {
        true
    }
}

impl Order for Softest {
    ghost before = { λ o m n. softer m n };

    ghost total = { Prim.search rules };

    ghost carries = { Prim.search rules };

    fn goes_before(&self, one: Note, other: Note) -> bool {
        one.velocity <= other.velocity
    }
}
