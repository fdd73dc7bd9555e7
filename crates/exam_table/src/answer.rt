ghost use Rattle.exam_table.specs.Answer.{AnswersStand, RunsStand};

use crate::sitting::ExamStack;
use sink::fault::refusal::Refusal;
use sink::fault::{Cause, LayerFault};
use sink::sink::Sink;

// After each row but the last the pipe of key 60 speaks and no other, and after the last row none: the shift acts on
// starts alone, and a release finds its note by the ticket. It does nothing else than to state it.
pub fn answers_stand()
    ensures calls { AnswersStand }
    ensures runs { RunsStand ⟦<ExamStack as Sink>⟧ ⟦<LayerFault<LayerFault<Cause>> as Refusal>⟧ }
{}
