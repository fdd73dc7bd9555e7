ghost use Rattle.std.specs.Prelude.{◌≡◌, ◌≤◌, take, vec_len};
ghost use Rattle.sink.specs.Ends.{Each, clean, complete};
ghost use Rattle.sink.specs.Meaning.{Idle};
ghost use Rattle.voice_log.specs.Lines.{Clean, Complete};
ghost use Rattle.stacks.specs.Voices.{NewVoices, voice_kind, log_of};

use hold::hold::Hold;
use mono::mono::Mono;
use quota::order::ours::Oldest;
use quota::quota::Quota;
use sink::fault::{Cause, LayerFault};
use transposer::transposer::Transposer;
use voice_log::line::Line;
use voice_log::log::VoiceLog;

// Transposer over hold over mono over quota over a voice log.
pub type VoiceStack = Transposer<Hold<Mono<Quota<VoiceLog, Oldest>>>>;

// Its fault: that of the sink that refused, carried up whole.
pub type VoiceFault = LayerFault<LayerFault<LayerFault<LayerFault<Cause>>>>;

// A new stack over these lines.
pub fn voice_stack(lines: Vec<Line>) -> VoiceStack
    ensures new { NewVoices lines.items result }
    ensures sound { voice_kind.sound result }
    ensures idle { Idle (voice_kind.meaning result) }
{
    Transposer::new(Hold::new(Mono::new(Quota::new(VoiceLog::new(lines), Oldest))))
}

// Takes the stack apart: the log's lines, and how many of them are written. Memory that was handed in goes back whole.
pub fn into_lines(stack: VoiceStack) -> (Vec<Line>, usize)
    ensures lines { result.0 ≡ (log_of stack).lines.items }
    ensures written { result.1 ≡ (log_of stack).lines.written }
    ensures within { result.1 ≤ vec_len result.0 }
    ensures clean { Each clean (voice_kind.ends stack) → Clean (take result.1 result.0.items) }
    ensures complete { Each complete (voice_kind.ends stack) → Complete (take result.1 result.0.items) }
{
    stack.finish().finish().finish().finish().finish()
}
