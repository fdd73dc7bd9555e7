ghost use Rattle.std.specs.Prelude.{◌≡◌, false, [], slice_index_or, replicate};
ghost use Rattle.sink.specs.Meaning.{Idle};
ghost use Rattle.rolled.specs.Rolled.{notes_of};
ghost use Rattle.mono.specs.Mono.{mono_meaning, MonoSound, MonoDoes, OneSounds};
ghost use Rattle.rolled.proofs.Onward.{none_owns, rolled_orderly};
ghost use Rattle.mono.specs.Law.{mono_stands};

use crate::mono::Mono;
use crate::mono::modes::follow;
use rolled::rolled::Rolled;
use rolled::switches::Switches;
use sink::calls::{ControlChange, NoteOn, Setting};
use sink::fault::{Cause, LayerFault};
use sink::sink::Sink;

impl<S: Sink> Mono<S> {
    // A mono over a sink, with every channel poly. Over an idle one it is sound and idle itself.
    pub fn new(below: S) -> Mono<S>
        ensures below { result.rolled.below ≡ below }
        ensures roll { notes_of result.rolled ≡ [] }
        ensures modes { result.modes.on ≡ replicate 16 false }
        ensures sound { S.Sink.sound below → Idle (S.Sink.meaning below) → MonoSound S.Sink.meaning S.Sink.sound result }
        ensures idle { Idle (S.Sink.meaning below) → Idle (mono_meaning S.Sink.meaning result) }
    {
        Mono {
            rolled: Rolled::new(below),
            modes: Switches::all_off(),
        }
    }

    // The sink below, handed back.
    pub fn finish(self) -> S
        ensures { result ≡ self.rolled.below }
    {
        let Mono { rolled, modes: _ } = self;
        rolled.finish()
    }

    // Whether a channel is mono. After an accepted start there no other owed ticket of the channel sounds.
    pub fn is_mono(&self, channel: u8) -> bool
        ensures mono { result ≡ slice_index_or self.now.modes.on channel false }
        ensures alone { MonoSound S.Sink.meaning S.Sink.sound self.now → OneSounds S.Fault.Refusal.denial S.Sink.meaning S.Sink.does channel result self.now }
    {
        self.modes.is_on(channel)
    }
}

impl<S: Sink> Sink for Mono<S> {
    type Fault = LayerFault<S::Fault>;

    ghost meaning = { λ s. mono_meaning S.Sink.meaning s };

    ghost sound = { λ s. MonoSound S.Sink.meaning S.Sink.sound s };

    ghost does = { λ s c a t. MonoDoes S.Fault.Refusal.denial S.Sink.meaning S.Sink.does s c a t };

    ghost ends = { λ s. S.Sink.ends s.rolled.below };

    ghost orderly = { λ s h. rolled_orderly record { orderly = S.Sink.orderly; stays = S.Sink.stays; means = S.Sink.means } none_owns s.rolled h };

    ghost stays = { λ s c a t h d. (mono_stands record { orderly = S.Sink.orderly; stays = S.Sink.stays; means = S.Sink.means } s a t h c d).0 };

    ghost means = { λ s c a t h d. (mono_stands record { orderly = S.Sink.orderly; stays = S.Sink.stays; means = S.Sink.means } s a t h c d).1 };

    ghost cleanly = { λ s h. S.Sink.cleanly s.rolled.below h.below };

    ghost completes = { λ s h q. S.Sink.completes s.rolled.below h.below q };

    // Handed on, as are `sounds`, `hush` and `clear`: Rust has no delegation, and the gate refuses an impl that a macro writes.
    fn ready(&self) -> Result<(), LayerFault<S::Fault>> {
        self.rolled.ready()
    }

    fn sounds(&self, ticket: u16) -> bool {
        self.rolled.below.sounds(ticket)
    }

    fn start(&mut self, place: u64, note: NoteOn) -> Result<u16, LayerFault<S::Fault>> {
        if !note.is_startable() {
            return Err(LayerFault::Own(Cause::OutOfRange));
        }
        self.rolled.ready()?;
        self.start_alone(place, note)
    }

    fn release(
        &mut self,
        place: u64,
        ticket: u16,
        velocity: u8,
    ) -> Result<(), LayerFault<S::Fault>> {
        if velocity > 127 {
            return Err(LayerFault::Own(Cause::OutOfRange));
        }
        self.rolled.release(place, ticket, velocity)
    }

    fn hush(&mut self, place: u64, ticket: u16) -> Result<(), LayerFault<S::Fault>> {
        self.rolled.hush(place, ticket)
    }

    fn tell(&mut self, place: u64, change: ControlChange) -> Result<(), LayerFault<S::Fault>> {
        if !change.is_tellable() {
            return Err(LayerFault::Own(Cause::TellOutOfRange));
        }
        follow(&mut self.modes, change);
        self.rolled.tell(place, change)
    }

    fn set(&mut self, place: u64, setting: Setting) -> Result<(), LayerFault<S::Fault>> {
        if let Some(below) = setting.below() {
            return self.rolled.set(place, below);
        }
        Err(LayerFault::Own(Cause::NoSuchItem))
    }

    fn clear(&mut self, place: u64) {
        self.rolled.clear(place)
    }
}
