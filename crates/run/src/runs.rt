ghost use Rattle.std.specs.Prelude.{◌*◌, ◌≤◌};
ghost use Rattle.run.specs.Counting.{total};

use crate::player::Player;
use reader::Reader;
use sink::sink::Sink;

pub mod calls;

// A run is opened over a stack and ends by `close`: it can be neither copied nor let go.
pub struct Run<S: Sink> {
    reader: Reader,
    count: u64,
    player: Player<S>,
    ghost counted: { count ≤ 4000000000 },
    ghost bounded: { total player.counts ≤ 4096 * count },
}

// Handed out by `open`, and taken back by `close` only: it can be neither copied nor let go.
pub struct RunSlip {
    issued: (),
}
