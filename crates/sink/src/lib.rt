// What a sink means: the trait that every layer and every end keeps, and the refusals that it answers.
#![tactic(auto)]

pub mod calls;
pub mod fault;
pub mod ranges;
pub mod sink;
