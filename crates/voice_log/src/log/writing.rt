ghost use Rattle.std.specs.Prelude.{◌≡◌, ◌+◌, ◌<◌};
ghost use Rattle.voice_log.specs.Log.{log_check, Writes, Stops};

use crate::line::{Kind, Line};
use crate::log::VoiceLog;
use ends::check_start;
use roll::note::Note;
use sink::fault::Cause;

impl VoiceLog {
    // Whether a start would be taken, and else why not.
    pub(crate) fn check(&self) -> Result<(), Cause>
        ensures { result ≡ log_check self.now }
    {
        let spare = self.lines.free() - self.sounding.count();
        check_start(&self.roll, spare, 2)
    }

    // Writes one line after the others.
    pub(crate) fn write(&mut self, line: Line)
        requires { self.old.lines.written + self.old.sounding.count < self.old.lines.room }
        ensures line { Writes line self.old self.new }
        ensures roll { self.new.roll ≡ self.old.roll }
        ensures sounding { self.new.sounding ≡ self.old.sounding }
    {
        self.lines.push(line);
        self.begun += line.kind.begun_lines();
    }

    // Writes the stop line of a ticket that sounds, and nothing for one that is silent.
    pub(crate) fn stop(&mut self, ticket: u16, place: u64, kind: Kind, note: Note, velocity: u8)
        ensures { Stops ticket place kind note velocity self.old self.new }
    {
        let sounding = self.sounding.voice(ticket);
        self.sounding.stop(ticket);
        if let Some(serial) = sounding {
            self.write(Line {
                place,
                kind,
                serial,
                channel: note.channel,
                key: note.key,
                velocity,
            });
        }
    }
}
