// Two ways to use a run that the compiler would not let go wrong: losing a slip, and feeding a closed run.
#![tactic(auto)]

ghost use Rattle.sink.specs.Meaning.{Idle};
ghost use Rattle.voice_log.specs.Log.{LogSound, log_meaning};
ghost use Rattle.playing.specs.Plays.{Fed};
ghost use Rattle.slips.specs.Twice.{Twice};

use run::{Run, TooManyBytes};
use sink::fault::Cause;
use sink::fault::refusal::Refusal;
use sink::sink::Sink;
use voice_log::log::VoiceLog;

// Plays the bytes into a log, and answers whether they were taken. The slip is spent by closing.
pub fn try_out(log: VoiceLog, bytes: &[u8]) -> Result<(), TooManyBytes>
    ensures { Fed bytes.now result }
{
    let (mut run, slip) = Run::open(log);
    let fed = run.feed(bytes);
    let _ = run.close(slip);
    fed
}

// Plays the bytes into a log twice. A closed run is not fed again: another is opened over the log handed back.
pub fn repeat(log: VoiceLog, bytes: &[u8]) -> VoiceLog
    ensures twice { Twice ⟦<VoiceLog as Sink>⟧ ⟦<Cause as Refusal>⟧ bytes.now log result }
    ensures idle { LogSound log → Idle (log_meaning log) → LogSound result × Idle (log_meaning result) }
{
    let (mut run, slip) = Run::open(log);
    let _ = run.feed(bytes);
    let (_, log) = run.close(slip);
    let (mut again, slip) = Run::open(log);
    let _ = again.feed(bytes);
    let (_, log) = again.close(slip);
    log
}
