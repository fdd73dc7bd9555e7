ghost use Rattle.std.specs.Prelude.{◌≡◌};
ghost use Rattle.roll.specs.Voices.{one};
ghost use Rattle.voice_log.specs.Lines.{kind_number, is_begun};

// What a line tells of its note.
#[derive(Clone, Copy, PartialEq, Eq, Debug)]
pub enum Kind {
    Begun = 1,
    Ended = 2,
    Hushed = 3,
}

impl Kind {
    pub fn number(self) -> u8
        ensures { result ≡ kind_number self }
    {
        self as u8
    }

    // How many begun lines a line of this kind is: one or none.
    pub(crate) fn begun_lines(self) -> u32
        ensures { result ≡ one (is_begun self) }
    {
        u32::from(self == Kind::Begun)
    }
}

// A line of the log. Notes are numbered from 0 as they begin; the serial is the number of the line's note.
#[derive(Clone, Copy, PartialEq, Eq, Debug)]
pub struct Line {
    pub place: u64,
    pub kind: Kind,
    pub serial: u32,
    pub channel: u8,
    pub key: u8,
    pub velocity: u8,
}

impl Line {
    pub const BLANK: Line = Line {
        place: 0,
        kind: Kind::Begun,
        serial: 0,
        channel: 0,
        key: 0,
        velocity: 0,
    };
}
