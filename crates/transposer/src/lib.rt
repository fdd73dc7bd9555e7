// The transposer: a layer that moves the key of each start.
#![tactic(auto)]

pub mod shift;
pub mod transposer;
