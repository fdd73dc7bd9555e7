ghost use Rattle.std.specs.Prelude.{◌≡◌};
ghost use Rattle.roll.specs.Notes.{picked};

// A started note. Its ticket is what the sink answered to the start.
// `kept` marks a note whose release was taken here and is not yet handed on.
#[derive(Clone, Copy, Debug, Eq, PartialEq)]
pub struct Note {
    pub ticket: u16,
    pub channel: u8,
    pub key: u8,
    pub velocity: u8,
    pub kept: bool,
}

impl Note {
    pub const BLANK: Note = Note {
        ticket: 0,
        channel: 0,
        key: 0,
        velocity: 0,
        kept: false,
    };
}

// Which notes of a roll are meant: that of a ticket, all of a channel, all that are kept, or those kept on a channel.
// This is no closure: each call that took one would have to be told the predicate that it computes, too.
#[derive(Clone, Copy, Debug)]
pub enum Pick {
    Ticket(u16),
    On(u8),
    Kept,
    KeptOn(u8),
}

impl Pick {
    // Whether a note is meant.
    pub fn takes(self, note: Note) -> bool
        ensures { result ≡ picked self note }
    {
        match self {
            Pick::Ticket(ticket) => note.ticket == ticket,
            Pick::On(channel) => note.channel == channel,
            Pick::Kept => note.kept,
            Pick::KeptOn(channel) => note.kept && note.channel == channel,
        }
    }
}
