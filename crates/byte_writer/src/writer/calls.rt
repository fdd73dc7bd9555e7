ghost use Rattle.std.specs.Prelude.{◌≡◌, min, List, [], take, replicate, is_some, None, vec_len};
ghost use Rattle.std.proofs.Common.{ap, ◌∙◌, rules, arith};
ghost use Rattle.sink.specs.Meaning.{Idle};
ghost use Rattle.byte_writer.specs.Laws.{SinceNew, Heard, ReadBack};
ghost use Rattle.byte_writer.specs.Receiver.{Clean};
ghost use Rattle.byte_writer.specs.Writer.{notes, voices, writer_meaning, WriterDoes, writer_ends, WriterSound, written_bytes};
ghost use Rattle.byte_writer.specs.Law.{writer_law};
ghost use Rattle.byte_writer.specs.Received.{told_clean, told_keys, is_off};
ghost use Rattle.sink.proofs.Bools.{clash};
ghost use Rattle.roll.proofs.Tallies.{with_gone};
ghost use Rattle.byte_writer.specs.Keys.{is_key};

use crate::message::NoteMessage;
use crate::strike::Strike;
use crate::writer::ByteWriter;
use crate::writer::writing::HUSHED;
use ends::MOST;
use ends::buffer::Buffer;
use roll::note::Pick;
use roll::roll::Roll;
use roll::sounding::Sounding;
use sink::calls::{ControlChange, NoteOn, Setting};
use sink::fault::Cause;
use sink::sink::Sink;

impl ByteWriter {
    // A writer over these bytes, of which it uses the first 1,000,000,000 at most.
    pub fn new(bytes: Vec<u8>) -> ByteWriter
        ensures bytes { result.bytes.items ≡ bytes }
        ensures written { result.bytes.written ≡ 0 }
        ensures room { result.bytes.room ≡ min (vec_len bytes) 1000000000 }
        ensures notes { notes result ≡ [] }
        ensures silent { voices result ≡ replicate 128 None }
        ensures since { SinceNew result [] }
        ensures sound { WriterSound result }
        ensures idle { Idle (writer_meaning result) }
    {
        ByteWriter {
            bytes: Buffer::new(bytes, MOST),
            roll: Roll::new(),
            sounding: Sounding::new(),
        }
    }

    // How many bytes are written.
    pub fn written(&self) -> usize
        ensures { result ≡ self.now.bytes.written }
    {
        self.bytes.written()
    }

    // Hands the bytes back, with how many of them are written.
    pub fn finish(self) -> (Vec<u8>, usize)
        ensures bytes { result.0 ≡ self.bytes.items }
        ensures written { result.1 ≡ self.bytes.written }
        ensures clean { WriterSound self → Clean (take result.1 result.0.items) }
        ensures heard { WriterSound self → Heard self }
        ensures messages { WriterSound self → (ms : List NoteMessage) × ReadBack self ms }
        ensures read_back { (ms : List NoteMessage) → SinceNew self ms → ReadBack self ms }
    {
        let ByteWriter {
            bytes,
            roll: _,
            sounding: _,
        } = self;
        bytes.finish()
    }
}

impl Sink for ByteWriter {
    type Fault = Cause;

    ghost meaning = { writer_meaning };

    ghost sound = { WriterSound };

    ghost does = { WriterDoes };

    ghost ends = { writer_ends };

    ghost orderly = { first_of (Prim.search rules, Prim.grind (arith, Self.row.coded.inj)) };

    ghost stays = { λ s c a t h d. (writer_law s a t h c d).1 };

    ghost means = { λ s c a t h d. (writer_law s a t h c d).0 };

    ghost cleanly = { λ s h. (told_clean (written_bytes s) (voices s) h.told, tt) };

    ghost completes = { λ s h q. (λ c k. is_off _ (told_keys (written_bytes s) (voices s) h.told c k ∙ with_gone (is_key c k) (voices s) (λ u x e. clash (is_some _) (ap is_some e) (q u))), tt) };

    fn ready(&self) -> Result<(), Cause> {
        self.check()
    }

    fn sounds(&self, ticket: u16) -> bool {
        self.sounding.voice(ticket).is_some()
    }

    fn start(&mut self, _place: u64, note: NoteOn) -> Result<u16, Cause> {
        let strike = Strike::try_from(note)?;
        self.check()?;
        Ok(self.begin(strike))
    }

    fn release(&mut self, _place: u64, ticket: u16, velocity: u8) -> Result<(), Cause> {
        if velocity > 127 {
            return Err(Cause::OutOfRange);
        }
        self.roll.find(ticket).ok_or(Cause::NotOwed)?;
        self.stop(ticket, velocity);
        self.roll.drop_picked(Pick::Ticket(ticket));
        Ok(())
    }

    fn hush(&mut self, _place: u64, ticket: u16) -> Result<(), Cause> {
        self.roll.find(ticket).ok_or(Cause::NotOwed)?;
        self.stop(ticket, HUSHED);
        Ok(())
    }

    // The two ends answer this alike, and `ready`, `sounds`, `set` and `clear`: a line or two each, and shared functions would be no fewer.
    fn tell(&mut self, _place: u64, change: ControlChange) -> Result<(), Cause> {
        if !change.is_tellable() {
            return Err(Cause::TellOutOfRange);
        }
        Ok(())
    }

    fn set(&mut self, _place: u64, _setting: Setting) -> Result<(), Cause> {
        Err(Cause::NoLayer)
    }

    fn clear(&mut self, _place: u64) {}
}
