use crate::shift::Shift;

// Moves the key of each start by the shift, its item 0. What it does not name goes below unchanged.
#[derive(Drop)]
pub struct Transposer<S> {
    below: S,
    shift: Shift,
}

pub mod adding;
pub mod calls;
