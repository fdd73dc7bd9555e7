// Reads the lines of a console script.
#![tactic(auto)]

ghost use Rattle.std.specs.Prelude.{◌≡◌, IfOk};
ghost use Rattle.script.specs.Meanings.{meant};
ghost use Rattle.script.specs.Lines.{says};

use std::alloc::{AllocError, Global};
use unread::Unread;
use words::Words;

mod acts;
mod numbers;
pub mod theorems;
mod unread;
mod words;

// What a line asks for.
#[derive(Debug, PartialEq, Drop)]
pub enum Act {
    Feed(Vec<u8>),
    Set { depth: u32, item: u32, value: i32 },
    Tally,
    Close,
}

// A line as read. One that cannot be read is answered like any other and does not end the reading, so it is no error: that of `read_line` is want of memory. `Result<Option<Act>, ..>` would be no plainer.
#[derive(Debug, PartialEq, Drop)]
pub enum Line {
    // no word stands there
    Empty,
    Act(Act),
    Unreadable,
}

// Reads a line. Fails for want of memory only.
pub fn read_line(heap: Global, line: &[u8]) -> Result<Line, AllocError>
    ensures { IfOk result (λ read. says read ≡ meant line.now) }
{
    let mut words = Words::of(line);
    let Some(name) = words.next() else {
        return Ok(Line::Empty);
    };
    match acts::named(heap, name, words) {
        Ok(act) => Ok(Line::Act(act)),
        Err(Unread::Unreadable) => Ok(Line::Unreadable),
        Err(Unread::Memory(error)) => Err(error),
    }
}
