// Reads a MIDI 1.0 byte stream: every message with its place.
#![tactic(auto)]

ghost use Rattle.std.specs.Prelude.{◌≡◌, true};
ghost use Rattle.reader.specs.Ranges.{attained};

pub use items::{Item, Message};
pub use pieces::{Piece, PlaceOverflow};
pub use states::State;

pub mod items;
pub mod pieces;
mod readers;
mod reading;
pub mod states;
mod steps;
pub mod theorems;

// A reader is the state between two bytes, which lasts from piece to piece.
#[derive(Clone, Copy)]
pub struct Reader {
    state: State,
    ghost valid: { attained state ≡ true },
}
