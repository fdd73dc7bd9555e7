ghost use Rattle.std.specs.Prelude.{◌≤◌};

use crate::key::Key;

// A key to be struck, and how hard.
#[derive(Clone, Copy)]
pub struct Strike {
    pub(crate) key: Key,
    pub(crate) velocity: u8,
    ghost low: { 1 ≤ velocity },
    ghost high: { velocity ≤ 127 },
}

pub mod calls;
