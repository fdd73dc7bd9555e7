// A roll: the notes that a layer or an end was given tickets for, in the order of their start.
#![tactic(auto)]

pub mod note;
pub mod roll;
pub mod sounding;
