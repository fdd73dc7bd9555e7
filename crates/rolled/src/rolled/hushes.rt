ghost use Rattle.rolled.specs.Chains.{Hushed};

use crate::rolled::Rolled;
use roll::note::Pick;
use sink::sink::Sink;

impl<S: Sink> Rolled<S> {
    // Hushes below the notes that are meant and sound, the oldest first.
    pub fn hush_picked(&mut self, place: u64, pick: Pick)
        ensures { Hushed S.Sink.meaning S.Sink.does place pick self.old self.new }
    {
        // This loop and that of `let_go` stay apart: a function over a closure would have to take the relation of its call, too.
        let Rolled { below, roll } = self;
        for note in roll.notes() {
            if pick.takes(*note) && below.sounds(note.ticket) {
                let _ = below.hush(place, note.ticket);
            }
        }
    }
}
