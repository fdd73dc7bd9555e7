ghost use Rattle.std.specs.Prelude.{◌≡◌, [], ◌∷◌, ◌++◌, string_bytes, OnOk, OnErr};
ghost use Rattle.run.specs.Counting.{tally_of};
ghost use Rattle.script.specs.Lines.{says};
ghost use Rattle.scripting.specs.Replies.{Replies, Leaves, console_text};
ghost use Rattle.scripting.specs.declared.answers.Answer.TheVariants.{Counted};

use crate::answers::Answer;
use crate::console::Console;
use script::{Act, Line};
use sink::calls::Setting;
use stacks::console_stack::ConsoleFault;
use std::fmt;

// Writes an answer and a line's end.
fn write_answer(text: &mut String, answer: Answer<ConsoleFault>) -> Result<(), fmt::Error>
    ensures { OnOk result (string_bytes text.new ≡ string_bytes text.old ++ (console_text answer ++ (10 ∷ []))) }
{
    writeln!(text, "{answer}")?;
    Ok(())
}

fn counted(console: &Console) -> Answer<ConsoleFault>
    ensures { result ≡ Counted (tally_of console.now.run.count console.now.run.player.counts) }
{
    Answer::Counted(console.tally())
}

// Does what a line says, and writes the answer. A line that cannot be read is answered by its number.
pub fn reply(
    console: &mut Console,
    text: &mut String,
    number: usize,
    line: &Line,
) -> Result<(), fmt::Error>
    ensures ok { OnOk result (Replies number (says line.now) console.old.run (string_bytes text.old) console.new.run (string_bytes text.new)) }
    ensures err { OnErr result (Leaves (says line.now) console.old.run console.new.run) }
{
    match line {
        Line::Empty | Line::Act(Act::Close) => Ok(()),
        Line::Unreadable => {
            writeln!(text, "error line {number}: cannot be read")?;
            Ok(())
        }
        Line::Act(Act::Feed(bytes)) => write_answer(text, Answer::from(console.feed(bytes))),
        Line::Act(Act::Set { depth, item, value }) => {
            let setting = Setting {
                depth: *depth,
                item: *item,
                value: *value,
            };
            write_answer(text, Answer::from(console.set(setting)))
        }
        Line::Act(Act::Tally) => write_answer(text, counted(console)),
    }
}
