ghost use Rattle.std.specs.Prelude.{◌≡◌, ◌≤◌, length};

use crate::note::Note;

// A roll: the notes that a sink has open, at most 128, the oldest first. Places from `count` on are not in use.
// A table with a count beside it and no `Vec`: a roll has fixed memory.
#[derive(Drop)]
pub struct Roll {
    notes: [Note; 128],
    count: usize,
    ghost fits: { count ≤ 128 },
    ghost long: { length notes ≡ 128 },
}

pub mod calls;
pub mod size;
