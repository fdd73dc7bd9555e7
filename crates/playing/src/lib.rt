// Plays a whole byte stream through a stack, from opening to closing.
#![tactic(auto)]

ghost use Rattle.std.specs.Prelude.{◌≡◌, ◌≤◌, take, vec_len};
ghost use Rattle.sink.specs.Meaning.{Idle};
ghost use Rattle.voice_log.specs.Lines.{Clean, Complete};
ghost use Rattle.playing.specs.Plays.{Fed, Told, Left, bytes_read};

use run::{Run, Tally, TooManyBytes};
use sink::fault::{Cause, LayerFault};
use sink::sink::Sink;
use transposer::transposer::Transposer;
use voice_log::line::Line;
use voice_log::log::VoiceLog;

pub mod text;

// What comes of playing a stream: whether it was taken, the tally, and the stack handed back.
pub struct Played<S: Sink> {
    pub fed: Result<(), TooManyBytes>,
    pub tally: Tally<S::Fault>,
    pub stack: S,
}

// Opens a run over a stack, feeds it the bytes and closes it. Where the stack was sound and idle, no note is left.
pub fn play<S: Sink>(stack: S, bytes: &[u8]) -> Played<S>
    ensures fed { Fed bytes.now result.fed }
    ensures left { S.Sink.sound stack → Idle (S.Sink.meaning stack) → Left S.Sink (bytes_read result.fed bytes.now) result.tally result.stack }
{
    let (mut run, slip) = Run::open(stack);
    let fed = run.feed(bytes);
    let (tally, stack) = run.close(slip);
    Played { fed, tally, stack }
}

// What comes of playing a stream into a voice log: the first `written` lines are the log. The lines stand whole, as the log was handed them.
#[derive(Drop)]
pub struct Logged {
    pub fed: Result<(), TooManyBytes>,
    pub tally: Tally<LayerFault<Cause>>,
    pub lines: Vec<Line>,
    pub written: usize,
}

impl Logged {
    // The lines of the log.
    pub fn written_lines(&self) -> &[Line]
        ensures { result.now ≡ take self.now.written self.now.lines.items }
    {
        &self.lines[..self.written.min(self.lines.len())]
    }
}

// Plays the bytes through a transposer into a voice log over these lines. Whatever they are, every note that the log
// begins it also stops, once, and all tickets are returned.
pub fn log(bytes: &[u8], lines: Vec<Line>) -> Logged
    ensures fed { Fed bytes.now result.fed }
    ensures told { Told (bytes_read result.fed bytes.now) result.tally }
    ensures within { result.written ≤ vec_len result.lines }
    ensures clean { Clean (take result.written result.lines.items) }
    ensures complete { Complete (take result.written result.lines.items) }
{
    let Played { fed, tally, stack } = play(Transposer::new(VoiceLog::new(lines)), bytes);
    let (lines, written) = stack.finish().finish();
    Logged {
        fed,
        tally,
        lines,
        written,
    }
}
