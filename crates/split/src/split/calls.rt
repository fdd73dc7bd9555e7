ghost use Rattle.std.specs.Prelude.{◌≡◌};
ghost use Rattle.sink.specs.Calls.{finished};
ghost use Rattle.sink.specs.Meaning.{Idle};
ghost use Rattle.split.specs.Zones.{AllZero};
ghost use Rattle.split.specs.Split.{split_meaning, SplitSound, SplitDoes, Both, Tells};
ghost use Rattle.split.specs.Law.{split_orderly, split_stands};
ghost use Rattle.std.proofs.Common.{rules};

use crate::split::Split;
use crate::zones::Zones;
use sink::calls::{ControlChange, NoteOn, Setting};
use sink::fault::{Cause, LayerFault};
use sink::sink::Sink;

impl<S: Sink> Split<S> {
    // A split over a sink, with all items 0.
    pub fn new(below: S) -> Split<S>
        ensures below { result.below ≡ below }
        ensures zones { AllZero result.zones }
        ensures sound { S.Sink.sound below → SplitSound S.Sink.sound result }
        ensures idle { Idle (S.Sink.meaning below) → Idle (split_meaning S.Sink.meaning result) }
    {
        Split {
            below,
            zones: Zones::new(),
        }
    }

    // The sink below, handed back.
    pub fn finish(self) -> S
        ensures { result ≡ self.below }
    {
        let Split { below, zones: _ } = self;
        below
    }

    // Hands a tell to a low channel, and unless that is denied to a high one.
    fn tell_both(
        &mut self,
        place: u64,
        low: u8,
        high: u8,
        change: ControlChange,
    ) -> Result<(), LayerFault<S::Fault>>
        ensures { Both S.Sink.does place low high change.controller change.value self.old (finished result) self.new }
    {
        let to_low = ControlChange {
            channel: low,
            ..change
        };
        let to_high = ControlChange {
            channel: high,
            ..change
        };
        self.below.tell(place, to_low)?;
        Ok(self.below.tell(place, to_high)?)
    }

    // Hands a tell to both sides of its channel, or on as it is.
    fn tell_sides(&mut self, place: u64, change: ControlChange) -> Result<(), LayerFault<S::Fault>>
        ensures { Tells S.Sink.does place change.channel change.controller change.value self.old (finished result) self.new }
    {
        let zones = self.zones;
        if change.channel != zones.channel {
            return Ok(self.below.tell(place, change)?);
        }
        if zones.low == zones.high {
            let to_both = ControlChange {
                channel: zones.low,
                ..change
            };
            return Ok(self.below.tell(place, to_both)?);
        }
        self.tell_both(place, zones.low, zones.high, change)
    }
}

impl<S: Sink> Sink for Split<S> {
    type Fault = LayerFault<S::Fault>;

    ghost meaning = { λ s. split_meaning S.Sink.meaning s };

    ghost sound = { λ s. SplitSound S.Sink.sound s };

    ghost does = { λ s c a t. SplitDoes S.Sink.does s c a t };

    ghost ends = { λ s. S.Sink.ends s.below };

    ghost orderly = { λ s h. split_orderly (S.Sink.meaning s.below) s (S.Sink.orderly s.below h) };

    ghost stays = { λ s c a t h d. (split_stands S.Fault.Refusal.denial S.Sink.meaning S.Sink.sound S.Sink.does S.Sink.stays S.Sink.means s a t h c d).0 };

    ghost means = { λ s c a t h d. (split_stands S.Fault.Refusal.denial S.Sink.meaning S.Sink.sound S.Sink.does S.Sink.stays S.Sink.means s a t h c d).1 };

    ghost cleanly = { Prim.search rules };

    ghost completes = { Prim.search rules };

    // Handed on, as are `sounds`, `hush` and `clear`: Rust has no delegation, and the gate refuses an impl that a macro writes.
    fn ready(&self) -> Result<(), LayerFault<S::Fault>> {
        Ok(self.below.ready()?)
    }

    fn sounds(&self, ticket: u16) -> bool {
        self.below.sounds(ticket)
    }

    fn start(&mut self, place: u64, note: NoteOn) -> Result<u16, LayerFault<S::Fault>> {
        if !note.is_startable() {
            return Err(LayerFault::Own(Cause::OutOfRange));
        }
        let channel = self.zones.send(note);
        Ok(self.below.start(place, NoteOn { channel, ..note })?)
    }

    fn release(
        &mut self,
        place: u64,
        ticket: u16,
        velocity: u8,
    ) -> Result<(), LayerFault<S::Fault>> {
        if velocity > 127 {
            return Err(LayerFault::Own(Cause::OutOfRange));
        }
        Ok(self.below.release(place, ticket, velocity)?)
    }

    fn hush(&mut self, place: u64, ticket: u16) -> Result<(), LayerFault<S::Fault>> {
        Ok(self.below.hush(place, ticket)?)
    }

    fn tell(&mut self, place: u64, change: ControlChange) -> Result<(), LayerFault<S::Fault>> {
        if !change.is_tellable() {
            return Err(LayerFault::Own(Cause::TellOutOfRange));
        }
        self.tell_sides(place, change)
    }

    fn set(&mut self, place: u64, setting: Setting) -> Result<(), LayerFault<S::Fault>> {
        if let Some(below) = setting.below() {
            return Ok(self.below.set(place, below)?);
        }
        // `map_err` was tried: the checker has no rule for a closure whose result names `S::Fault`.
        match self.zones.set(setting.item, setting.value) {
            Ok(()) => Ok(()),
            Err(cause) => Err(LayerFault::Own(cause)),
        }
    }

    fn clear(&mut self, place: u64) {
        self.below.clear(place)
    }
}
