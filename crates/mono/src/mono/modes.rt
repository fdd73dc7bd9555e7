ghost use Rattle.std.specs.Prelude.{◌≡◌};
ghost use Rattle.sink.specs.Calls.{started};
ghost use Rattle.mono.specs.Mono.{moded, MadeWay, Started};

use crate::mono::Mono;
use roll::note::Pick;
use rolled::switches::Switches;
use sink::calls::{ControlChange, NoteOn};
use sink::fault::LayerFault;
use sink::sink::Sink;

// What a tell does to the modes.
pub(crate) fn follow(modes: &mut Switches, change: ControlChange)
    ensures { modes.new.on ≡ moded change.channel change.controller modes.old.on }
{
    match change.controller {
        126 => modes.put(change.channel, true),
        127 => modes.put(change.channel, false),
        _ => {}
    }
}

impl<S: Sink> Mono<S> {
    // Hushes what a start on a channel replaces.
    fn make_way(&mut self, place: u64, channel: u8)
        ensures rolled { MadeWay S.Sink.meaning S.Sink.does place channel self.old.modes.on self.old.rolled self.new.rolled }
        ensures modes { self.new.modes ≡ self.old.modes }
    {
        if self.modes.is_on(channel) {
            self.rolled.hush_picked(place, Pick::On(channel));
        }
    }

    // Makes way for a start, and hands it on.
    pub(crate) fn start_alone(
        &mut self,
        place: u64,
        note: NoteOn,
    ) -> Result<u16, LayerFault<S::Fault>>
        ensures { Started S.Sink.meaning S.Sink.does place note.channel note.key note.velocity self.old (started result) self.new }
    {
        self.make_way(place, note.channel);
        self.rolled.start(place, note)
    }
}
