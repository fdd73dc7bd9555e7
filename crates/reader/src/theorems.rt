ghost use Rattle.reader.specs.Laws.{TwoPiecesJoin, PiecesJoin, NoteOnsJoin, RealTimeApart, PlacesRise, RunningStatus, ClockInside, ExclusiveBroken};

// The laws of reading, which hold of every reader and all bytes. It does nothing else than to state them.
pub fn laws()
    ensures two_pieces { TwoPiecesJoin }
    ensures pieces { PiecesJoin }
    ensures note_ons { NoteOnsJoin }
    ensures real_time { RealTimeApart }
    ensures places { PlacesRise }
    ensures examples { RunningStatus × ClockInside × ExclusiveBroken }
{}
