// The mono: a layer that lets one note at a time sound on each channel that is set to mono.
#![tactic(auto)]

pub mod mono;
