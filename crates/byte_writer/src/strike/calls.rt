ghost use Rattle.byte_writer.specs.Strikes.{StrikeOf};

use crate::key::Key;
use crate::strike::Strike;
use sink::calls::NoteOn;
use sink::fault::Cause;

// The key that a start strikes, if its numbers are in range.
impl TryFrom<NoteOn> for Strike {
    type Error = Cause;

    ghost try_from_gives = { StrikeOf };

    fn try_from(note: NoteOn) -> Result<Strike, Cause> {
        if !note.is_startable() {
            return Err(Cause::OutOfRange);
        }
        Ok(Strike {
            key: Key {
                channel: note.channel,
                number: note.key,
            },
            velocity: note.velocity,
        })
    }
}
