ghost use Rattle.std.specs.Prelude.{◌≡◌, IfOk, string_bytes};
ghost use Rattle.exam_table.specs.Table.{right_answers};

use crate::sitting::log;
use crate::table::table;
use std::alloc::Global;
use std::fmt;
use voice_log::line::Line;

// Plays the rows through a new stack, and gives the table of its log. Fails for want of memory only.
pub fn answer_sheet(heap: Global) -> Result<String, fmt::Error>
    ensures { IfOk result (λ t. string_bytes t ≡ right_answers) }
{
    let logged = log(vec![in heap; Line::BLANK; 2]?);
    table(heap, logged.written_lines())
}
