ghost use Rattle.std.specs.Prelude.{Some};
ghost use Rattle.voice_log.specs.Text.{line_text_of};

use crate::line::Line;
use std::fmt;

// The six fields in their order, one space between.
impl fmt::Display for Line {
    ghost output = { λ l. Some (line_text_of l) };

    fn fmt<W: fmt::Write>(&self, f: &mut fmt::Formatter<W>) -> fmt::Result {
        let Line {
            place,
            kind,
            serial,
            channel,
            key,
            velocity,
        } = *self;
        let number = kind.number();
        write!(f, "{place} {number} {serial} {channel} {key} {velocity}")
    }
}
