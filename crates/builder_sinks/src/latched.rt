// The valve of a pipe that latches: after its release the note speaks on until it is cleared.
#[derive(Clone, Copy)]
pub enum Valve {
    Closed,
    Held { speaking: bool },
    Latched { speaking: bool },
}

// One pipe, played by the one ticket 7.
#[derive(Drop)]
pub struct LatchedPipe {
    valve: Valve,
}

pub mod calls;
