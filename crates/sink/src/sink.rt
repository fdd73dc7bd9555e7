ghost use Rattle.std.specs.Prelude.{◌≡◌, ℕ, Bool, false, List};
ghost use Rattle.sink.specs.Calls.{Call, Start, Release, Hush, Tell, Set, Clear, Answer, done, started, finished};
ghost use Rattle.sink.specs.Meaning.{Meaning, Orderly, Means, whether};
ghost use Rattle.sink.specs.Ends.{End, Each, clean, complete};

use crate::calls::{ControlChange, NoteOn, Setting};
use crate::fault::refusal::Refusal;

// What notes are played into: a layer over another sink, an end of ours, or a builder's own chest.
// A call's `place` is that of the byte that it comes from; layers hand it on unchanged.
pub trait Sink {
    type Fault: Refusal;

    // What a state means: whether it is ready, and which tickets are owed, kept and sounding.
    ghost meaning: { Self → Meaning };

    // What each state has that the calls lead to from a new sink.
    ghost sound: { Self → Type 0 };

    // To which states a call leads, by its answer.
    ghost does: { Self → Call → Answer Self.Fault → Self → Type 0 };

    // Our ends below, each with what is true of what it has written; none below a builder's own sink.
    ghost ends: { Self → List End };

    // Whether a start would be taken, and else why not.
    fn ready(&self) -> Result<(), Self::Fault>
        ensures { whether Self.Fault.Refusal.denial result ≡ (meaning self.now).ready };

    // Whether a ticket sounds.
    fn sounds(&self, ticket: u16) -> bool
        ensures { result ≡ (meaning self.now).sounding ticket };

    // A note begins; answered by its ticket.
    fn start(&mut self, place: u64, note: NoteOn) -> Result<u16, Self::Fault>
        ensures { does self.old (Start place note.channel note.key note.velocity) (started result) self.new };

    // A ticket is given back. Two numbers of two types are not mistaken for one another; a struct of them would only lengthen the calls.
    fn release(&mut self, place: u64, ticket: u16, velocity: u8) -> Result<(), Self::Fault>
        ensures { does self.old (Release place ticket velocity) (finished result) self.new };

    // A ticket falls silent and stays owed.
    fn hush(&mut self, place: u64, ticket: u16) -> Result<(), Self::Fault>
        ensures { does self.old (Hush place ticket) (finished result) self.new };

    // A controller message.
    fn tell(&mut self, place: u64, change: ControlChange) -> Result<(), Self::Fault>
        ensures { does self.old (Tell place change.channel change.controller change.value) (finished result) self.new };

    // A setting of the layer at a depth: 0 is the sink called.
    fn set(&mut self, place: u64, setting: Setting) -> Result<(), Self::Fault>
        ensures { does self.old (Set place setting.depth setting.item setting.value) (finished result) self.new };

    // What is kept ends.
    fn clear(&mut self, place: u64)
        ensures { does self.old (Clear place) done self.new };

    // Owed and kept have no ticket in common, and only their tickets sound.
    ghost orderly: { (s : Self) → sound s → Orderly (meaning s) };

    // Calls lead from sound states to sound states.
    ghost stays: { (s : Self) (c : Call) (a : Answer Self.Fault) (t : Self) → sound s → does s c a t → sound t };

    // Each call has its meaning, by its answer.
    ghost means: { (s : Self) (c : Call) (a : Answer Self.Fault) (t : Self) → sound s → does s c a t → Means Self.Fault.Refusal.denial meaning s c a t };

    // At our ends below no note was begun twice, and none stopped that had not begun.
    ghost cleanly: { (s : Self) → sound s → Each clean (ends s) };

    // Where nothing sounds, every note begun at an end below has its one stop.
    ghost completes: { (s : Self) → sound s → ((u : ℕ) → (meaning s).sounding u ≡ false) → Each complete (ends s) };
}
