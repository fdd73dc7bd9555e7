ghost use Rattle.std.specs.Prelude.{◌≡◌, []};
ghost use Rattle.sink.specs.Calls.{Start, Release, Hush, Tell, Set, Clear, done, started, finished};
ghost use Rattle.sink.specs.Faults.{layer_denial};
ghost use Rattle.sink.specs.Layered.{ready_over};
ghost use Rattle.sink.specs.Meaning.{whether};
ghost use Rattle.roll.specs.Notes.{full};
ghost use Rattle.rolled.specs.Rolled.{notes_of, Onward};

use crate::rolled::Rolled;
use roll::note::{Note, Pick};
use roll::roll::Roll;
use sink::calls::{ControlChange, NoteOn, Setting};
use sink::fault::{Cause, LayerFault};
use sink::sink::Sink;

impl<S: Sink> Rolled<S> {
    pub fn new(below: S) -> Rolled<S>
        ensures below { result.below ≡ below }
        ensures roll { notes_of result ≡ [] }
    {
        Rolled {
            below,
            roll: Roll::new(),
        }
    }

    // The sink below, handed back.
    pub fn finish(self) -> S
        ensures { result ≡ self.below }
    {
        let Rolled { below, roll: _ } = self;
        below
    }

    // Ready when below is, looked at first, and the roll has room.
    pub fn ready(&self) -> Result<(), LayerFault<S::Fault>>
        ensures { whether (layer_denial S.Fault.Refusal.denial) result ≡ ready_over (full (notes_of self.now)) (S.Sink.meaning self.now.below).ready }
    {
        self.below.ready()?;
        if self.roll.is_full() {
            return Err(LayerFault::Own(Cause::AllOut));
        }
        Ok(())
    }

    // Hands a start on; its note joins the roll.
    pub fn start(&mut self, place: u64, note: NoteOn) -> Result<u16, LayerFault<S::Fault>>
        ensures { Onward S.Sink.does (Start place note.channel note.key note.velocity) self.old (started result) self.new }
    {
        let ticket = self.below.start(place, note)?;
        self.roll.add(Note {
            ticket,
            channel: note.channel,
            key: note.key,
            velocity: note.velocity,
            kept: false,
        });
        Ok(ticket)
    }

    // Hands a release on; its note leaves the roll.
    pub fn release(
        &mut self,
        place: u64,
        ticket: u16,
        velocity: u8,
    ) -> Result<(), LayerFault<S::Fault>>
        ensures { Onward S.Sink.does (Release place ticket velocity) self.old (finished result) self.new }
    {
        self.below.release(place, ticket, velocity)?;
        self.roll.drop_picked(Pick::Ticket(ticket));
        Ok(())
    }

    pub fn hush(&mut self, place: u64, ticket: u16) -> Result<(), LayerFault<S::Fault>>
        ensures { Onward S.Sink.does (Hush place ticket) self.old (finished result) self.new }
    {
        Ok(self.below.hush(place, ticket)?)
    }

    pub fn tell(&mut self, place: u64, change: ControlChange) -> Result<(), LayerFault<S::Fault>>
        ensures { Onward S.Sink.does (Tell place change.channel change.controller change.value) self.old (finished result) self.new }
    {
        Ok(self.below.tell(place, change)?)
    }

    pub fn set(&mut self, place: u64, setting: Setting) -> Result<(), LayerFault<S::Fault>>
        ensures { Onward S.Sink.does (Set place setting.depth setting.item setting.value) self.old (finished result) self.new }
    {
        Ok(self.below.set(place, setting)?)
    }

    pub fn clear(&mut self, place: u64)
        ensures { Onward S.Sink.does (Clear place) self.old done self.new }
    {
        self.below.clear(place)
    }
}
