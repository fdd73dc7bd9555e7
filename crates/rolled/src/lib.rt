// What the layers with a roll share: a sink below with the roll of the notes that are owed there.
#![tactic(auto)]

pub mod rolled;
pub mod switches;
