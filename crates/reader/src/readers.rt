ghost use Rattle.std.specs.Prelude.{◌≡◌};
ghost use Rattle.reader.specs.Laws.{TwoPiecesJoin, PiecesJoin, NoteOnsJoin, RealTimeApart, PlacesRise};

use crate::Reader;
use crate::states::State;
use crate::theorems::laws;

impl Reader {
    // A reader before the first byte. What it reads obeys the laws.
    pub fn new() -> Reader
        ensures idle { result.state ≡ State.Idle }
        ensures two_pieces { TwoPiecesJoin }
        ensures pieces { PiecesJoin }
        ensures note_ons { NoteOnsJoin }
        ensures real_time { RealTimeApart }
        ensures places { PlacesRise }
    {
        laws();
        Reader { state: State::Idle }
    }

    pub fn state(&self) -> State
        ensures { result ≡ self.now.state }
    {
        self.state
    }
}
