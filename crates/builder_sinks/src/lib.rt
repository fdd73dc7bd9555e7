// Two sinks as a builder would write them, worked examples, and tests on stacks. Nothing of the product uses this crate.
#![tactic(auto)]

pub mod examples;
pub mod latched;
#[cfg(test)]
mod tests;
pub mod windless;
