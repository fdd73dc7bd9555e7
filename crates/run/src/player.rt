ghost use Rattle.std.specs.Prelude.{◌≡◌, length};

use crate::counts::Counts;
use sink::sink::Sink;

pub mod acts;
pub mod keys;

// The stack, the key table (128 places for each channel, each empty or with one ticket), and what was counted.
// The table is an array and no map: it has fixed memory.
pub struct Player<S: Sink> {
    pub(crate) stack: S,
    pub(crate) table: [Option<u16>; 2048],
    pub(crate) counts: Counts<S::Fault>,
    ghost long: { length table ≡ 2048 },
}
