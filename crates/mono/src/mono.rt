use rolled::rolled::Rolled;
use rolled::switches::Switches;

// On a mono channel it hushes what sounds before it starts a note. It has no item to set.
#[derive(Drop)]
pub struct Mono<S> {
    rolled: Rolled<S>,
    // on: the channel is mono; off: poly
    modes: Switches,
}

pub mod calls;
mod modes;
