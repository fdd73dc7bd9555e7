ghost use Rattle.std.specs.Prelude.{◌≡◌, ◌≤◌, []};
ghost use Rattle.sink.specs.Calls.{started};
ghost use Rattle.sink.specs.Meaning.{Idle};
ghost use Rattle.rolled.specs.Rolled.{notes_of};
ghost use Rattle.quota.specs.Quota.{quota_meaning, QuotaSound, QuotaDoes, Started, AtMost};
ghost use Rattle.rolled.proofs.Onward.{none_owns, rolled_orderly};
ghost use Rattle.quota.specs.Law.{quota_stands};

use crate::limit::Limit;
use crate::order::Order;
use crate::quota::Quota;
use rolled::rolled::Rolled;
use sink::calls::{ControlChange, NoteOn, Setting};
use sink::fault::{Cause, LayerFault};
use sink::sink::Sink;

impl<S: Sink, O: Order> Quota<S, O> {
    // A quota over a sink, with the highest limit. Over an idle one it is sound and idle itself.
    pub fn new(below: S, order: O) -> Quota<S, O>
        ensures below { result.rolled.below ≡ below }
        ensures roll { notes_of result.rolled ≡ [] }
        ensures limit { result.limit.notes ≡ 64 }
        ensures order { result.order ≡ order }
        ensures sound { S.Sink.sound below → Idle (S.Sink.meaning below) → QuotaSound S.Sink.meaning S.Sink.sound result }
        ensures idle { Idle (S.Sink.meaning below) → Idle (quota_meaning S.Sink.meaning result) }
    {
        Quota {
            rolled: Rolled::new(below),
            limit: Limit::highest(),
            order,
        }
    }

    // The sink below, handed back.
    pub fn finish(self) -> S
        ensures { result ≡ self.rolled.below }
    {
        let Quota {
            rolled,
            limit: _,
            order: _,
        } = self;
        rolled.finish()
    }

    // The limit. No more owed tickets than that sound.
    pub fn limit(&self) -> u8
        ensures limit { result ≡ self.now.limit.notes }
        ensures least { 1 ≤ result }
        ensures most { result ≤ 64 }
        ensures few { QuotaSound S.Sink.meaning S.Sink.sound self.now → AtMost result (quota_meaning S.Sink.meaning self.now) }
    {
        self.limit.notes
    }

    // Hushes notes until fewer than the limit sound, and hands a start on.
    fn start_within(&mut self, place: u64, note: NoteOn) -> Result<u16, LayerFault<S::Fault>>
        ensures { Started S.Fault.Refusal.denial S.Sink.meaning S.Sink.does O.Order.before place note.channel note.key note.velocity self.old (started result) self.new }
    {
        let limit = self.limit;
        self.make_room(place, limit.notes - 1);
        self.rolled.start(place, note)
    }
}

impl<S: Sink, O: Order> Sink for Quota<S, O> {
    type Fault = LayerFault<S::Fault>;

    ghost meaning = { λ s. quota_meaning S.Sink.meaning s };

    ghost sound = { λ s. QuotaSound S.Sink.meaning S.Sink.sound s };

    ghost does = { λ s c a t. QuotaDoes S.Fault.Refusal.denial S.Sink.meaning S.Sink.does O.Order.before s c a t };

    ghost ends = { λ s. S.Sink.ends s.rolled.below };

    ghost orderly = { λ s h. rolled_orderly record { orderly = S.Sink.orderly; stays = S.Sink.stays; means = S.Sink.means } none_owns s.rolled h.rolled };

    ghost stays = { λ s c a t h d. (quota_stands O.Order.before record { orderly = S.Sink.orderly; stays = S.Sink.stays; means = S.Sink.means } s a t h c d).0 };

    ghost means = { λ s c a t h d. (quota_stands O.Order.before record { orderly = S.Sink.orderly; stays = S.Sink.stays; means = S.Sink.means } s a t h c d).1 };

    ghost cleanly = { λ s h. S.Sink.cleanly s.rolled.below h.rolled.below };

    ghost completes = { λ s h q. S.Sink.completes s.rolled.below h.rolled.below q };

    // Handed on, as are `sounds`, `hush` and `clear`: Rust has no delegation, and the gate refuses an impl that a macro writes.
    fn ready(&self) -> Result<(), LayerFault<S::Fault>> {
        self.rolled.ready()
    }

    fn sounds(&self, ticket: u16) -> bool {
        self.rolled.below.sounds(ticket)
    }

    fn start(&mut self, place: u64, note: NoteOn) -> Result<u16, LayerFault<S::Fault>> {
        if !note.is_startable() {
            return Err(LayerFault::Own(Cause::OutOfRange));
        }
        self.rolled.ready()?;
        self.start_within(place, note)
    }

    fn release(
        &mut self,
        place: u64,
        ticket: u16,
        velocity: u8,
    ) -> Result<(), LayerFault<S::Fault>> {
        if velocity > 127 {
            return Err(LayerFault::Own(Cause::OutOfRange));
        }
        self.rolled.release(place, ticket, velocity)
    }

    fn hush(&mut self, place: u64, ticket: u16) -> Result<(), LayerFault<S::Fault>> {
        self.rolled.hush(place, ticket)
    }

    fn tell(&mut self, place: u64, change: ControlChange) -> Result<(), LayerFault<S::Fault>> {
        if !change.is_tellable() {
            return Err(LayerFault::Own(Cause::TellOutOfRange));
        }
        self.rolled.tell(place, change)
    }

    fn set(&mut self, place: u64, setting: Setting) -> Result<(), LayerFault<S::Fault>> {
        if let Some(below) = setting.below() {
            return self.rolled.set(place, below);
        }
        if setting.item != 0 {
            return Err(LayerFault::Own(Cause::NoSuchItem));
        }
        // `map_err` was tried: the checker has no rule for a closure whose result names `S::Fault`.
        match Limit::try_from(setting.value) {
            Ok(limit) => {
                self.make_room(place, limit.notes);
                self.limit = limit;
                Ok(())
            }
            Err(cause) => Err(LayerFault::Own(cause)),
        }
    }

    fn clear(&mut self, place: u64) {
        self.rolled.clear(place)
    }
}
