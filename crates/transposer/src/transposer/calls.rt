ghost use Rattle.std.specs.Prelude.{◌≡◌, pos};
ghost use Rattle.sink.specs.Meaning.{Idle};
ghost use Rattle.transposer.specs.Transposer.{transposer_meaning, TransposerSound, TransposerDoes};
ghost use Rattle.transposer.specs.Law.{transposer_orderly, transposer_stays, transposer_means};
ghost use Rattle.std.proofs.Common.{rules};

use crate::shift::Shift;
use crate::transposer::Transposer;
use sink::calls::{ControlChange, NoteOn, Setting};
use sink::fault::{Cause, LayerFault};
use sink::sink::Sink;

impl<S: Sink> Transposer<S> {
    pub fn new(below: S) -> Transposer<S>
        ensures below { result.below ≡ below }
        ensures shift { result.shift.semitones ≡ pos 0 }
        ensures sound { S.Sink.sound below → TransposerSound S.Sink.sound result }
        ensures idle { Idle (S.Sink.meaning below) → Idle (transposer_meaning S.Sink.meaning result) }
    {
        Transposer {
            below,
            shift: Shift::none(),
        }
    }

    // The sink below, handed back.
    pub fn finish(self) -> S
        ensures { result ≡ self.below }
    {
        let Transposer { below, shift: _ } = self;
        below
    }
}

impl<S: Sink> Sink for Transposer<S> {
    type Fault = LayerFault<S::Fault>;

    ghost meaning = { λ s. transposer_meaning S.Sink.meaning s };

    ghost sound = { λ s. TransposerSound S.Sink.sound s };

    ghost does = { λ s c a t. TransposerDoes S.Sink.does s c a t };

    ghost ends = { λ s. S.Sink.ends s.below };

    ghost orderly = { λ s h. transposer_orderly (S.Sink.meaning s.below) s (S.Sink.orderly s.below h) };

    ghost stays = { λ s c a t h d. transposer_stays S.Fault.Refusal.denial S.Sink.meaning S.Sink.sound S.Sink.does S.Sink.stays S.Sink.means s a t h c d };

    ghost means = { λ s c a t h d. transposer_means S.Fault.Refusal.denial S.Sink.meaning S.Sink.sound S.Sink.does S.Sink.stays S.Sink.means s a t h c d };

    ghost cleanly = { Prim.search rules };

    ghost completes = { Prim.search rules };

    // Handed on, as are `sounds`, `hush` and `clear`: Rust has no delegation, and the gate refuses an impl that a macro writes.
    fn ready(&self) -> Result<(), LayerFault<S::Fault>> {
        Ok(self.below.ready()?)
    }

    fn sounds(&self, ticket: u16) -> bool {
        self.below.sounds(ticket)
    }

    fn start(&mut self, place: u64, note: NoteOn) -> Result<u16, LayerFault<S::Fault>> {
        if !note.is_startable() {
            return Err(LayerFault::Own(Cause::OutOfRange));
        }
        let key = self.shift.moved(note.key);
        Ok(self.below.start(place, NoteOn { key, ..note })?)
    }

    fn release(
        &mut self,
        place: u64,
        ticket: u16,
        velocity: u8,
    ) -> Result<(), LayerFault<S::Fault>> {
        if velocity > 127 {
            return Err(LayerFault::Own(Cause::OutOfRange));
        }
        Ok(self.below.release(place, ticket, velocity)?)
    }

    fn hush(&mut self, place: u64, ticket: u16) -> Result<(), LayerFault<S::Fault>> {
        Ok(self.below.hush(place, ticket)?)
    }

    fn tell(&mut self, place: u64, change: ControlChange) -> Result<(), LayerFault<S::Fault>> {
        if !change.is_tellable() {
            return Err(LayerFault::Own(Cause::TellOutOfRange));
        }
        Ok(self.below.tell(place, change)?)
    }

    fn set(&mut self, place: u64, setting: Setting) -> Result<(), LayerFault<S::Fault>> {
        if let Some(below) = setting.below() {
            return Ok(self.below.set(place, below)?);
        }
        if setting.item != 0 {
            return Err(LayerFault::Own(Cause::NoSuchItem));
        }
        // `map_err` was tried: the checker has no rule for a closure whose result names `S::Fault`.
        match Shift::try_from(setting.value) {
            Ok(shift) => {
                self.shift = shift;
                Ok(())
            }
            Err(cause) => Err(LayerFault::Own(cause)),
        }
    }

    fn clear(&mut self, place: u64) {
        self.below.clear(place)
    }
}
