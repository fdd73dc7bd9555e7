ghost use Rattle.std.specs.Prelude.{◌≡◌, ◌+◌, ◌≤◌, take};
ghost use Rattle.voice_log.specs.Lines.{begun_count};

use crate::line::Line;
use ends::buffer::Buffer;
use roll::roll::Roll;
use roll::sounding::Sounding;

// Writes to the lines that it is handed. A line is set aside for the stop of each ticket that sounds.
#[derive(Drop)]
pub struct VoiceLog {
    lines: Buffer<Line>,
    begun: u32,
    roll: Roll,
    sounding: Sounding<u32>,
    ghost most: { lines.room ≤ 1000000000 },
    ghost counted: { begun ≡ begun_count (take lines.written lines.items.items) },
    ghost reserved: { lines.written + sounding.count ≤ lines.room },
}

pub mod calls;
mod writing;
