ghost use Rattle.rolled.specs.Chains.{LetGo};

use crate::rolled::Rolled;
use roll::note::Pick;
use sink::sink::Sink;

impl<S: Sink> Rolled<S> {
    // Releases the notes that are meant below with velocity 64, the oldest first, and drops them here.
    pub fn let_go(&mut self, place: u64, pick: Pick)
        ensures { LetGo S.Sink.does place pick self.old self.new }
    {
        let Rolled { below, roll } = self;
        for note in roll.notes() {
            if pick.takes(*note) {
                let _ = below.release(place, note.ticket, 64);
            }
        }
        roll.drop_picked(pick);
    }
}
