ghost use Rattle.std.specs.Prelude.{◌≡◌, ◌++◌, IfOk, string_bytes, OnOk};
ghost use Rattle.exam_table.specs.Table.{row_text, table_text};

use crate::pipes::Pipes;
use crate::row::Row;
use crate::speaking::speaking;
use std::alloc::Global;
use std::fmt;
use voice_log::line::Line;

// Writes a row: what is done, and which pipes then speak.
#[tactic(auto, unfolding(crate::specs::Table::row_text))]
fn write_row(heap: Global, text: &mut String, row: Row, lines: &[Line]) -> fmt::Result
    ensures { OnOk result (string_bytes text.new ≡ string_bytes text.old ++ row_text lines.now row) }
{
    let keys = speaking(heap, lines, row.end())?;
    writeln!(text, "{row}{}", Pipes(&keys))?;
    Ok(())
}

// The table of these lines, a line for each row. Fails for want of memory only.
pub fn table(heap: Global, lines: &[Line]) -> Result<String, fmt::Error>
    ensures { IfOk result (λ t. string_bytes t ≡ table_text lines.now) }
{
    let mut text = String::new(heap);
    for row in Row::ALL {
        write_row(heap, &mut text, row, lines)?;
    }
    Ok(text)
}
