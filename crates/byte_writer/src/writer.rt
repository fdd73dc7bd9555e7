ghost use Rattle.std.specs.Prelude.{◌+◌, ◌*◌, ◌≤◌};

use crate::key::Key;
use ends::buffer::Buffer;
use roll::roll::Roll;
use roll::sounding::Sounding;

// Writes to the bytes that it is handed. Three are set aside for the Note-off of each ticket that sounds.
#[derive(Drop)]
pub struct ByteWriter {
    bytes: Buffer<u8>,
    roll: Roll,
    sounding: Sounding<Key>,
    ghost most: { bytes.room ≤ 1000000000 },
    ghost reserved: { bytes.written + 3 * sounding.count ≤ bytes.room },
}

pub mod calls;
pub(crate) mod writing;
