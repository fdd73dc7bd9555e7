// The split: a layer that sends the low and the high keys of one channel to two channels.
#![tactic(auto)]

pub mod split;
pub mod zones;
