ghost use Rattle.std.specs.Prelude.{◌≡◌, ℕ, ◌+◌, ◌*◌, ◌<◌, ◌≤◌, true, false, [], ◌∷◌, ◌++◌, is_some, Some, slice_set};
ghost use Rattle.roll.specs.Notes.{lists, full};
ghost use Rattle.roll.specs.Voices.{one};
ghost use Rattle.ends.specs.Buffers.{Appended};
ghost use Rattle.ends.specs.Ending.{new_note};
ghost use Rattle.byte_writer.specs.Keys.{silenced};
ghost use Rattle.byte_writer.specs.Messages.{bytes_of};
ghost use Rattle.byte_writer.specs.Writer.{writer_check, notes, voices, holder, Wrote, stop_messages, Stops, HushedFirst, strike_messages};

use crate::key::Key;
use crate::message::NoteMessage;
use crate::strike::Strike;
use crate::writer::ByteWriter;
use ends::buffer::Buffer;
use ends::check_start;
use roll::note::Note;
use sink::fault::Cause;

// The velocity of a Note-off that no release asked for.
pub(crate) const HUSHED: u8 = 64;

// Writes the Note-off of a voice, if there is one.
fn write_off(bytes: &mut Buffer<u8>, voice: Option<Key>, velocity: u8)
    requires velocity { velocity ≤ 127 }
    requires space { bytes.old.written + 3 * one (is_some voice) ≤ bytes.old.room }
    ensures wrote { Appended (bytes_of (stop_messages voice velocity)) bytes.old bytes.new }
    ensures written { bytes.new.written ≡ bytes.old.written + 3 * one (is_some voice) }
{
    if let Some(key) = voice {
        NoteMessage::Off {
            channel: key.channel,
            key: key.number,
            velocity,
        }
        .write(bytes);
    }
}

impl ByteWriter {
    // Whether a start would be taken, and else why not.
    pub(crate) fn check(&self) -> Result<(), Cause>
        ensures { result ≡ writer_check self.now }
    {
        let spare = self.bytes.free() - 3 * self.sounding.count();
        check_start(&self.roll, spare, 6)
    }

    // The least ticket that sounds with a key.
    fn holder(&self, key: Key) -> Option<u16>
        ensures { result ≡ holder key.channel key.number self.now }
    {
        (0..128).find(|&ticket| self.sounding.voice(ticket) == Some(key))
    }

    // A ticket stops: the Note-off of one that sounds is written, and nothing for one that is silent.
    pub(crate) fn stop(&mut self, ticket: u16, velocity: u8)
        requires { velocity ≤ 127 }
        ensures stops { Stops ticket velocity self.old self.new }
        ensures space { self.new.bytes.written + 3 * self.new.sounding.count ≡ self.old.bytes.written + 3 * self.old.sounding.count }
    {
        let voice = self.sounding.voice(ticket);
        self.sounding.stop(ticket);
        write_off(&mut self.bytes, voice, velocity);
    }

    // Stops the ticket that sounds with the key to be struck, if there is one.
    fn hush_first(&mut self, ticket: Option<u16>)
        ensures hushed { HushedFirst ticket self.old self.new }
        ensures space { self.new.bytes.written + 3 * self.new.sounding.count ≡ self.old.bytes.written + 3 * self.old.sounding.count }
    {
        if let Some(ticket) = ticket {
            self.stop(ticket, HUSHED);
        }
    }

    // Strikes a key; a ticket that sounds with it already is stopped first.
    fn strike(&mut self, strike: Strike)
        requires { self.old.bytes.written + 3 * self.old.sounding.count + 6 ≤ self.old.bytes.room }
        ensures wrote { Wrote (strike_messages (holder strike.key.channel strike.key.number self.old) strike.key.channel strike.key.number strike.velocity) self.old self.new }
        ensures voices { voices self.new ≡ silenced (holder strike.key.channel strike.key.number self.old) (voices self.old) }
        ensures space { self.new.bytes.written + 3 * self.new.sounding.count ≡ self.old.bytes.written + 3 * self.old.sounding.count + 3 }
        ensures roll { self.new.roll ≡ self.old.roll }
    {
        let holder = self.holder(strike.key);
        self.hush_first(holder);
        NoteMessage::On {
            channel: strike.key.channel,
            key: strike.key.number,
            velocity: strike.velocity,
        }
        .write(&mut self.bytes);
    }

    // Begins a note with a new ticket.
    pub(crate) fn begin(&mut self, strike: Strike) -> u16
        requires space { self.old.bytes.written + 3 * self.old.sounding.count + 6 ≤ self.old.bytes.room }
        requires ticket { full (notes self.old) ≡ false }
        ensures small { result < 128 }
        ensures fresh { lists (notes self.old) result ≡ false }
        ensures least { (u : ℕ) → u < result → lists (notes self.old) u ≡ true }
        ensures wrote { Wrote (strike_messages (holder strike.key.channel strike.key.number self.old) strike.key.channel strike.key.number strike.velocity) self.old self.new }
        ensures voices { voices self.new ≡ slice_set (silenced (holder strike.key.channel strike.key.number self.old) (voices self.old)) result (Some strike.key) }
        ensures roll { notes self.new ≡ notes self.old ++ (new_note result strike.key.channel strike.key.number strike.velocity ∷ []) }
    {
        let ticket = self.roll.free_ticket();
        self.strike(strike);
        self.sounding.begin(ticket, strike.key);
        self.roll.add(Note {
            ticket,
            channel: strike.key.channel,
            key: strike.key.number,
            velocity: strike.velocity,
            kept: false,
        });
        ticket
    }
}
