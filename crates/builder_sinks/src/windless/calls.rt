ghost use Rattle.std.specs.Prelude.{[]};
ghost use Rattle.sink.specs.Meaning.{Idle, Meant};
ghost use Rattle.builder_sinks.specs.Windless.{chest_denial, windless_meaning, WindlessSound};
ghost use Rattle.std.proofs.Common.{rules};

use crate::windless::{ChestFault, Windless};
use sink::calls::{ControlChange, NoteOn, Setting};
use sink::fault::Cause;
use sink::fault::refusal::Refusal;
use sink::sink::Sink;

impl Refusal for ChestFault {
    ghost denial = { chest_denial };

    fn number(&self) -> u8 {
        match self {
            ChestFault::NoWind => 200,
            ChestFault::Plain(cause) => cause.number(),
        }
    }

    fn depth(&self) -> u8 {
        0
    }
}

impl Windless {
    pub fn new() -> Windless
        ensures { Idle (windless_meaning result) }
    {
        Windless {}
    }
}

impl Sink for Windless {
    type Fault = ChestFault;

    ghost meaning = { windless_meaning };

    ghost sound = { WindlessSound };

    ghost does = { Meant chest_denial windless_meaning WindlessSound };

    ghost ends = { λ _. [] };

    ghost orderly = { Prim.search rules };

    ghost stays = { Prim.search rules };

    ghost means = { Prim.search rules };

    ghost cleanly = { Prim.search rules };

    ghost completes = { Prim.search rules };

    fn ready(&self) -> Result<(), ChestFault> {
        Err(ChestFault::NoWind)
    }

    fn sounds(&self, _ticket: u16) -> bool {
        false
    }

    fn start(&mut self, _place: u64, note: NoteOn) -> Result<u16, ChestFault> {
        if !note.is_startable() {
            return Err(ChestFault::Plain(Cause::OutOfRange));
        }
        Err(ChestFault::NoWind)
    }

    fn release(&mut self, _place: u64, _ticket: u16, velocity: u8) -> Result<(), ChestFault> {
        if velocity > 127 {
            return Err(ChestFault::Plain(Cause::OutOfRange));
        }
        Err(ChestFault::Plain(Cause::NotOwed))
    }

    fn hush(&mut self, _place: u64, _ticket: u16) -> Result<(), ChestFault> {
        Err(ChestFault::Plain(Cause::NotOwed))
    }

    fn tell(&mut self, _place: u64, change: ControlChange) -> Result<(), ChestFault> {
        if !change.is_tellable() {
            return Err(ChestFault::Plain(Cause::TellOutOfRange));
        }
        Ok(())
    }

    fn set(&mut self, _place: u64, _setting: Setting) -> Result<(), ChestFault> {
        Err(ChestFault::Plain(Cause::NoLayer))
    }

    fn clear(&mut self, _place: u64) {}
}
