// The two stacks that the programs play through.
#![tactic(auto)]

pub mod console_stack;
pub mod voice_stack;
