ghost use Rattle.std.specs.Prelude.{◌≡◌};
ghost use Rattle.sink.specs.Calls.{finished};
ghost use Rattle.rolled.specs.Rolled.{notes_of, keeps};
ghost use Rattle.hold.specs.Hold.{is_under_pedal, lifts, moved, Lifted, Told};

use crate::hold::Hold;
use roll::note::Pick;
use rolled::switches::Switches;
use sink::calls::ControlChange;
use sink::fault::LayerFault;
use sink::sink::Sink;

// Whether a tell lets go of what is kept on its channel.
fn is_lift(change: ControlChange) -> bool
    ensures { result ≡ lifts change.controller change.value }
{
    matches!(
        (change.controller, change.value),
        (64, 0..=63) | (120 | 121, _)
    )
}

// What a tell does to the pedals.
fn follow(pedals: &mut Switches, change: ControlChange)
    ensures { pedals.new.on ≡ moved change.channel change.controller change.value pedals.old.on }
{
    match change.controller {
        64 => pedals.put(change.channel, change.value >= 64),
        121 => pedals.put(change.channel, false),
        _ => {}
    }
}

impl<S: Sink> Hold<S> {
    // Whether the hold keeps a ticket itself.
    pub(crate) fn is_kept(&self, ticket: u16) -> bool
        ensures { result ≡ keeps (notes_of self.now.rolled) ticket }
    {
        self.rolled.roll.find(ticket).is_some_and(|note| note.kept)
    }

    // Whether a ticket's note is on a channel whose pedal is down.
    pub(crate) fn is_under(&self, ticket: u16) -> bool
        ensures { result ≡ is_under_pedal self.now.pedals.on (notes_of self.now.rolled) ticket }
    {
        self.rolled
            .roll
            .find(ticket)
            .is_some_and(|note| self.pedals.is_on(note.channel))
    }

    // Moves the pedal, and releases what a tell lets go.
    fn obey(&mut self, place: u64, change: ControlChange)
        ensures rolled { Lifted S.Sink.does place change.channel change.controller change.value self.old.rolled self.new.rolled }
        ensures pedals { self.new.pedals.on ≡ moved change.channel change.controller change.value self.old.pedals.on }
    {
        follow(&mut self.pedals, change);
        if is_lift(change) {
            self.rolled.let_go(place, Pick::KeptOn(change.channel));
        }
    }

    // First its own work, then the tell is handed on.
    pub(crate) fn hear(
        &mut self,
        place: u64,
        change: ControlChange,
    ) -> Result<(), LayerFault<S::Fault>>
        ensures { Told S.Sink.does place change.channel change.controller change.value self.old (finished result) self.new }
    {
        self.obey(place, change);
        self.rolled.tell(place, change)
    }
}
