// The voice log: an end that writes a line for each note begun and each note stopped.
#![tactic(auto)]

pub mod line;
pub mod line_text;
pub mod log;
