// The quota: a layer that lets a limited number of notes sound at a time.
#![tactic(auto)]

pub mod limit;
pub mod order;
pub mod quota;
