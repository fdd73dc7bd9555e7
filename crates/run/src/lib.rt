// A run: console bytes in, notes started and released at a stack of sinks.
#![tactic(auto)]

pub use counts::{Counts, DeniedStart, Tally, TooManyBytes};
pub use runs::{Run, RunSlip};

pub mod counts;
pub mod player;
pub mod runs;
