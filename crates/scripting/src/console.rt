ghost use Rattle.scripting.specs.Consoles.{HasPast};

use run::{Run, RunSlip};
use stacks::console_stack::ConsoleStack;

// An open run over a new console stack. Whatever was done with it so far, it has a past of which the theorem on runs speaks.
pub struct Console {
    run: Run<ConsoleStack>,
    slip: RunSlip,
    ghost played: { HasPast run },
}

pub mod calls;
