// The byte writer: an end that writes each note begun and each note stopped as a MIDI message.
#![tactic(auto)]

mod key;
mod message;
mod strike;
pub mod theorems;
pub mod writer;
