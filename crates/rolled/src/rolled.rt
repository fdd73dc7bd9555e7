use roll::roll::Roll;

// A sink below, and the roll of the notes that are owed there.
#[derive(Drop)]
pub struct Rolled<S> {
    pub below: S,
    pub roll: Roll,
}

pub mod calls;
pub mod hushes;
pub mod releases;
