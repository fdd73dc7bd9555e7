// A question for fitters, answered by the unit itself. Key 60 is pressed, the transposer is set an octave up, the hold
// pedal is pressed, and then first the key and last the pedal is let go: which pipes speak after each of these rows?
#![tactic(auto)]

pub mod answer;
pub mod pipes;
pub mod row;
pub mod sheet;
pub mod sitting;
pub mod speaking;
pub mod table;
