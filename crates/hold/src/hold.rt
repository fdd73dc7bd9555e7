use rolled::rolled::Rolled;
use rolled::switches::Switches;

// Keeps the tickets that are released while their channel's pedal is down, until it rises. It has no item to set.
#[derive(Drop)]
pub struct Hold<S> {
    rolled: Rolled<S>,
    // on: the pedal is down
    pedals: Switches,
}

pub mod calls;
mod pedals;
