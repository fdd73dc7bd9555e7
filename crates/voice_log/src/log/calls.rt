ghost use Rattle.std.specs.Prelude.{◌≡◌, min, [], take, replicate, is_some, None, vec_len};
ghost use Rattle.std.proofs.Common.{ap, rules, arith};
ghost use Rattle.sink.specs.Meaning.{Idle};
ghost use Rattle.voice_log.specs.Log.{notes, log_meaning, LogDoes, log_ends, LogSound, Stopped, written_lines, serial_of};
ghost use Rattle.voice_log.specs.Lines.{Clean};
ghost use Rattle.voice_log.specs.Law.{log_law};
ghost use Rattle.sink.proofs.Bools.{clash};
ghost use Rattle.voice_log.specs.Written.{told_stop};

use crate::line::{Kind, Line};
use crate::log::VoiceLog;
use ends::MOST;
use ends::buffer::Buffer;
use roll::note::{Note, Pick};
use roll::roll::Roll;
use roll::sounding::Sounding;
use sink::calls::{ControlChange, NoteOn, Setting};
use sink::fault::Cause;
use sink::sink::Sink;

impl VoiceLog {
    // A log over these lines, of which it uses the first 1,000,000,000 at most.
    pub fn new(lines: Vec<Line>) -> VoiceLog
        ensures lines { result.lines.items ≡ lines }
        ensures written { result.lines.written ≡ 0 }
        ensures room { result.lines.room ≡ min (vec_len lines) 1000000000 }
        ensures notes { notes result ≡ [] }
        ensures silent { result.sounding.voices ≡ replicate 128 None }
        ensures sound { LogSound result }
        ensures idle { Idle (log_meaning result) }
    {
        VoiceLog {
            lines: Buffer::new(lines, MOST),
            begun: 0,
            roll: Roll::new(),
            sounding: Sounding::new(),
        }
    }

    // How many lines are written.
    pub fn written(&self) -> usize
        ensures { result ≡ self.now.lines.written }
    {
        self.lines.written()
    }

    // The lines, and how many of them are written.
    pub fn finish(self) -> (Vec<Line>, usize)
        ensures lines { result.0 ≡ self.lines.items }
        ensures written { result.1 ≡ self.lines.written }
        ensures clean { LogSound self → Clean (take result.1 result.0.items) }
        ensures stopped { LogSound self → Stopped self }
    {
        let VoiceLog {
            lines,
            begun: _,
            roll: _,
            sounding: _,
        } = self;
        lines.finish()
    }
}

impl Sink for VoiceLog {
    type Fault = Cause;

    ghost meaning = { log_meaning };

    ghost sound = { LogSound };

    ghost does = { LogDoes };

    ghost ends = { log_ends };

    ghost orderly = { first_of (Prim.search rules, Prim.grind (arith, Self.row.coded.inj)) };

    ghost stays = { λ s c a t h d. (log_law s a t h c d).1 };

    ghost means = { λ s c a t h d. (log_law s a t h c d).0 };

    ghost cleanly = { first_of (Prim.search rules, Prim.grind (arith, Self.row.coded.inj)) };

    ghost completes = { λ s h q. (λ n b. told_stop (written_lines s) s.sounding.voices h.told n b (λ u e. clash (is_some (serial_of s u)) (ap is_some e) (q u)), tt) };

    fn ready(&self) -> Result<(), Cause> {
        self.check()
    }

    fn sounds(&self, ticket: u16) -> bool {
        self.sounding.voice(ticket).is_some()
    }

    fn start(&mut self, place: u64, note: NoteOn) -> Result<u16, Cause> {
        if !note.is_startable() {
            return Err(Cause::OutOfRange);
        }
        let NoteOn {
            channel,
            key,
            velocity,
        } = note;
        self.check()?;
        let ticket = self.roll.free_ticket();
        let serial = self.begun;
        self.write(Line {
            place,
            kind: Kind::Begun,
            serial,
            channel,
            key,
            velocity,
        });
        self.roll.add(Note {
            ticket,
            channel,
            key,
            velocity,
            kept: false,
        });
        self.sounding.begin(ticket, serial);
        Ok(ticket)
    }

    fn release(&mut self, place: u64, ticket: u16, velocity: u8) -> Result<(), Cause> {
        if velocity > 127 {
            return Err(Cause::OutOfRange);
        }
        let note = self.roll.find(ticket).ok_or(Cause::NotOwed)?;
        self.stop(ticket, place, Kind::Ended, note, velocity);
        self.roll.drop_picked(Pick::Ticket(ticket));
        Ok(())
    }

    fn hush(&mut self, place: u64, ticket: u16) -> Result<(), Cause> {
        let note = self.roll.find(ticket).ok_or(Cause::NotOwed)?;
        self.stop(ticket, place, Kind::Hushed, note, 0);
        Ok(())
    }

    // The two ends answer this alike, and `ready`, `sounds`, `set` and `clear`: a line or two each, and shared functions would be no fewer.
    fn tell(&mut self, _place: u64, change: ControlChange) -> Result<(), Cause> {
        if !change.is_tellable() {
            return Err(Cause::TellOutOfRange);
        }
        Ok(())
    }

    fn set(&mut self, _place: u64, _setting: Setting) -> Result<(), Cause> {
        Err(Cause::NoLayer)
    }

    fn clear(&mut self, _place: u64) {}
}
