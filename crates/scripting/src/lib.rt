// Plays the acts of a console script through a run over the console's stack, and says what is answered.
#![tactic(auto)]

pub mod answers;
pub mod console;
pub mod replies;
