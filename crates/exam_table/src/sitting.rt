ghost use Rattle.std.specs.Prelude.{◌≡◌, ◌≤◌, take, vec_len};
ghost use Rattle.exam_table.specs.Answer.{Rests};
ghost use Rattle.exam_table.specs.Rows.{Plays};
ghost use Rattle.exam_table.specs.Stack.{New, log_of};
ghost use Rattle.exam_table.specs.Sitting.{Logs, the_log};

use crate::row::Row;
use hold::hold::Hold;
use run::Run;
use sink::fault::refusal::Refusal;
use sink::fault::{Cause, LayerFault};
use sink::sink::Sink;
use transposer::transposer::Transposer;
use voice_log::line::Line;
use voice_log::log::VoiceLog;

// Opens a run over a stack, plays the rows in their order, closes it, and hands the stack back.
pub fn play<S: Sink>(stack: S) -> S
    ensures { Plays S.Sink S.Fault.Refusal stack result }
{
    let (mut run, slip) = Run::open(stack);
    for row in Row::ALL {
        row.act(&mut run);
    }
    let (_, stack) = run.close(slip);
    stack
}

// The unit in question: a transposer over a hold over a voice log.
pub type ExamStack = Transposer<Hold<VoiceLog>>;

// A new stack over these lines: no key down, no pedal down, no shift.
pub fn exam_stack(lines: Vec<Line>) -> ExamStack
    ensures new { New lines.items result }
    ensures rests { Rests result }
{
    Transposer::new(Hold::new(VoiceLog::new(lines)))
}

// What comes of the rows: the first `written` lines are the log. The lines stand whole, as the log was handed them.
#[derive(Drop)]
pub struct Logged {
    pub lines: Vec<Line>,
    pub written: usize,
}

impl Logged {
    // The lines of the log.
    pub fn written_lines(&self) -> &[Line]
        ensures { result.now ≡ take self.now.written self.now.lines.items }
    {
        &self.lines[..self.written.min(self.lines.len())]
    }
}

// Takes the stack apart.
fn unstack(stack: ExamStack) -> Logged
    ensures lines { result.lines ≡ (log_of stack).lines.items }
    ensures written { result.written ≡ (log_of stack).lines.written }
    ensures within { result.written ≤ vec_len result.lines }
{
    let (lines, written) = stack.finish().finish().finish();
    Logged { lines, written }
}

// Plays the rows through a new stack over these lines. With two lines or more, key 60 begins with the first row and ends
// with the last, and nothing else is logged.
pub fn log(lines: Vec<Line>) -> Logged
    ensures logs { Logs ⟦<ExamStack as Sink>⟧ ⟦<LayerFault<LayerFault<Cause>> as Refusal>⟧ lines.items result.written result.lines.items }
    ensures within { result.written ≤ vec_len result.lines }
    ensures exact { 2 ≤ vec_len lines → take result.written result.lines.items ≡ the_log }
{
    unstack(play(exam_stack(lines)))
}
