ghost use Rattle.std.specs.Prelude.{[]};
ghost use Rattle.sink.specs.Faults.{here};
ghost use Rattle.sink.specs.Meaning.{Idle, Meant};
ghost use Rattle.builder_sinks.specs.Latched.{latched_meaning, LatchedSound};
ghost use Rattle.std.proofs.Common.{rules};

use crate::latched::{LatchedPipe, Valve};
use sink::calls::{ControlChange, NoteOn, Setting};
use sink::fault::Cause;
use sink::sink::Sink;

impl LatchedPipe {
    pub fn new() -> LatchedPipe
        ensures { Idle (latched_meaning result) }
    {
        LatchedPipe {
            valve: Valve::Closed,
        }
    }
}

impl Sink for LatchedPipe {
    type Fault = Cause;

    ghost meaning = { latched_meaning };

    ghost sound = { LatchedSound };

    ghost does = { Meant here latched_meaning LatchedSound };

    ghost ends = { λ _. [] };

    ghost orderly = { Prim.search rules };

    ghost stays = { Prim.search rules };

    ghost means = { Prim.search rules };

    ghost cleanly = { Prim.search rules };

    ghost completes = { Prim.search rules };

    fn ready(&self) -> Result<(), Cause> {
        match self.valve {
            Valve::Closed => Ok(()),
            _ => Err(Cause::AllOut),
        }
    }

    fn sounds(&self, ticket: u16) -> bool {
        match self.valve {
            Valve::Closed => false,
            Valve::Held { speaking } | Valve::Latched { speaking } => speaking && ticket == 7,
        }
    }

    fn start(&mut self, _place: u64, note: NoteOn) -> Result<u16, Cause> {
        if !note.is_startable() {
            return Err(Cause::OutOfRange);
        }
        let Valve::Closed = self.valve else {
            return Err(Cause::AllOut);
        };
        self.valve = Valve::Held { speaking: true };
        Ok(7)
    }

    fn release(&mut self, _place: u64, ticket: u16, velocity: u8) -> Result<(), Cause> {
        if velocity > 127 {
            return Err(Cause::OutOfRange);
        }
        match self.valve {
            Valve::Held { speaking } if ticket == 7 => {
                self.valve = Valve::Latched { speaking };
                Ok(())
            }
            _ => Err(Cause::NotOwed),
        }
    }

    fn hush(&mut self, _place: u64, ticket: u16) -> Result<(), Cause> {
        match self.valve {
            Valve::Held { .. } if ticket == 7 => {
                self.valve = Valve::Held { speaking: false };
                Ok(())
            }
            _ => Err(Cause::NotOwed),
        }
    }

    fn tell(&mut self, _place: u64, change: ControlChange) -> Result<(), Cause> {
        if !change.is_tellable() {
            return Err(Cause::TellOutOfRange);
        }
        Ok(())
    }

    fn set(&mut self, _place: u64, _setting: Setting) -> Result<(), Cause> {
        Err(Cause::NoLayer)
    }

    fn clear(&mut self, _place: u64) {
        if let Valve::Latched { .. } = self.valve {
            self.valve = Valve::Closed;
        }
    }
}
