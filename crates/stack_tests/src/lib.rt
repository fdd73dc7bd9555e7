// Tests on stacks of several layers in several orders. Nothing of the product uses this crate.
#![tactic(auto)]

pub mod acts;
pub mod deep;
#[cfg(test)]
mod tests;
