// The hold: a layer that keeps released notes sounding while their channel's sustain pedal is down.
#![tactic(auto)]

pub mod hold;
