ghost use Rattle.std.specs.Prelude.{◌≡◌, false, [], replicate, slice_index_or};
ghost use Rattle.sink.specs.Meaning.{Idle};
ghost use Rattle.roll.specs.Notes.{picked};
ghost use Rattle.roll.specs.declared.note.Pick.TheVariants.{KeptOn};
ghost use Rattle.rolled.specs.Rolled.{notes_of};
ghost use Rattle.rolled.specs.Chains.{tickets_of};
ghost use Rattle.hold.specs.Hold.{hold_meaning, HoldSound, HoldDoes};
ghost use Rattle.rolled.proofs.Onward.{marked_owns, rolled_orderly};
ghost use Rattle.hold.specs.Law.{hold_stands};

use crate::hold::Hold;
use roll::note::Pick;
use rolled::rolled::Rolled;
use rolled::switches::Switches;
use sink::calls::{ControlChange, NoteOn, Setting};
use sink::fault::{Cause, LayerFault};
use sink::sink::Sink;

impl<S: Sink> Hold<S> {
    // A hold over a sink, with every pedal up. Over an idle one it is sound and idle itself.
    pub fn new(below: S) -> Hold<S>
        ensures below { result.rolled.below ≡ below }
        ensures roll { notes_of result.rolled ≡ [] }
        ensures pedals { result.pedals.on ≡ replicate 16 false }
        ensures sound { S.Sink.sound below → Idle (S.Sink.meaning below) → HoldSound S.Sink.meaning S.Sink.sound result }
        ensures idle { Idle (S.Sink.meaning below) → Idle (hold_meaning S.Sink.meaning result) }
    {
        Hold {
            rolled: Rolled::new(below),
            pedals: Switches::all_off(),
        }
    }

    // The sink below, handed back.
    pub fn finish(self) -> S
        ensures { result ≡ self.rolled.below }
    {
        let Hold { rolled, pedals: _ } = self;
        rolled.finish()
    }

    // Whether a channel's pedal is down. Under a raised pedal no note is kept.
    #[tactic(auto, using(crate::specs::Pedals::none_under_raised))]
    pub fn is_down(&self, channel: u8) -> bool
        ensures down { result ≡ slice_index_or self.now.pedals.on channel false }
        ensures raised { HoldSound S.Sink.meaning S.Sink.sound self.now → result ≡ false → tickets_of (picked (KeptOn channel)) (notes_of self.now.rolled) ≡ [] }
    {
        self.pedals.is_on(channel)
    }
}

impl<S: Sink> Sink for Hold<S> {
    type Fault = LayerFault<S::Fault>;

    ghost meaning = { λ s. hold_meaning S.Sink.meaning s };

    ghost sound = { λ s. HoldSound S.Sink.meaning S.Sink.sound s };

    ghost does = { λ s c a t. HoldDoes S.Fault.Refusal.denial S.Sink.meaning S.Sink.does s c a t };

    ghost ends = { λ s. S.Sink.ends s.rolled.below };

    ghost orderly = { λ s h. rolled_orderly record { orderly = S.Sink.orderly; stays = S.Sink.stays; means = S.Sink.means } marked_owns s.rolled h.rolled };

    ghost stays = { λ s c a t h d. (hold_stands record { orderly = S.Sink.orderly; stays = S.Sink.stays; means = S.Sink.means } s a t h c d).0 };

    ghost means = { λ s c a t h d. (hold_stands record { orderly = S.Sink.orderly; stays = S.Sink.stays; means = S.Sink.means } s a t h c d).1 };

    ghost cleanly = { λ s h. S.Sink.cleanly s.rolled.below h.rolled.below };

    ghost completes = { λ s h q. S.Sink.completes s.rolled.below h.rolled.below q };

    // Handed on, as is `sounds`: Rust has no delegation, and the gate refuses an impl that a macro writes.
    fn ready(&self) -> Result<(), LayerFault<S::Fault>> {
        self.rolled.ready()
    }

    fn sounds(&self, ticket: u16) -> bool {
        self.rolled.below.sounds(ticket)
    }

    fn start(&mut self, place: u64, note: NoteOn) -> Result<u16, LayerFault<S::Fault>> {
        if !note.is_startable() {
            return Err(LayerFault::Own(Cause::OutOfRange));
        }
        self.rolled.ready()?;
        self.rolled.start(place, note)
    }

    fn release(
        &mut self,
        place: u64,
        ticket: u16,
        velocity: u8,
    ) -> Result<(), LayerFault<S::Fault>> {
        if velocity > 127 {
            return Err(LayerFault::Own(Cause::OutOfRange));
        }
        if self.is_kept(ticket) {
            return Err(LayerFault::Own(Cause::NotOwed));
        }
        if self.is_under(ticket) {
            self.rolled.roll.mark(ticket);
            return Ok(());
        }
        self.rolled.release(place, ticket, velocity)
    }

    fn hush(&mut self, place: u64, ticket: u16) -> Result<(), LayerFault<S::Fault>> {
        if self.is_kept(ticket) {
            return Err(LayerFault::Own(Cause::NotOwed));
        }
        self.rolled.hush(place, ticket)
    }

    fn tell(&mut self, place: u64, change: ControlChange) -> Result<(), LayerFault<S::Fault>> {
        if !change.is_tellable() {
            return Err(LayerFault::Own(Cause::TellOutOfRange));
        }
        self.hear(place, change)
    }

    fn set(&mut self, place: u64, setting: Setting) -> Result<(), LayerFault<S::Fault>> {
        if let Some(below) = setting.below() {
            return self.rolled.set(place, below);
        }
        Err(LayerFault::Own(Cause::NoSuchItem))
    }

    fn clear(&mut self, place: u64) {
        self.rolled.let_go(place, Pick::Kept);
        self.pedals = Switches::all_off();
        self.rolled.clear(place)
    }
}
