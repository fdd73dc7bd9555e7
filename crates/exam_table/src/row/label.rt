ghost use Rattle.std.specs.Prelude.{◌≡◌, Some};
ghost use Rattle.exam_table.specs.Table.{label_of};

use crate::row::Row;
use std::fmt;

// What is done at a row, filled up to the width of its column.
fn label(row: Row) -> &'static str
    ensures { result.now ≡ label_of row }
{
    match row {
        Row::KeyDown => "key 60 down      ",
        Row::Transpose => "transposer +12   ",
        Row::PedalDown => "pedal down       ",
        Row::KeyUp => "key 60 up        ",
        Row::PedalUp => "pedal up         ",
    }
}

impl fmt::Display for Row {
    ghost output = { λ r. Some (label_of r) };

    fn fmt<W: fmt::Write>(&self, f: &mut fmt::Formatter<W>) -> fmt::Result {
        f.write_str(label(*self))
    }
}
