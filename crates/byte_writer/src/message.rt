ghost use Rattle.std.specs.Prelude.{◌≡◌, ◌+◌, ◌≤◌};
ghost use Rattle.ends.specs.Buffers.{Appended};
ghost use Rattle.byte_writer.specs.Messages.{Ranged, message_bytes};

use ends::buffer::Buffer;

// A Note-on or a Note-off.
#[derive(Clone, Copy)]
pub enum NoteMessage {
    On { channel: u8, key: u8, velocity: u8 },
    Off { channel: u8, key: u8, velocity: u8 },
}

impl NoteMessage {
    // The status byte and the two data bytes.
    fn bytes(self) -> [u8; 3]
        requires { Ranged self }
        ensures { result ≡ message_bytes self }
    {
        match self {
            NoteMessage::On {
                channel,
                key,
                velocity,
            } => [0x90 + channel, key, velocity],
            NoteMessage::Off {
                channel,
                key,
                velocity,
            } => [0x80 + channel, key, velocity],
        }
    }

    // Writes it at the next three places.
    pub(crate) fn write(self, bytes: &mut Buffer<u8>)
        requires ranged { Ranged self }
        requires space { bytes.old.written + 3 ≤ bytes.old.room }
        ensures { Appended (message_bytes self) bytes.old bytes.new }
    {
        bytes.append(&self.bytes());
    }
}
