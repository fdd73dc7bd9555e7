ghost use Rattle.std.specs.Prelude.{◌≡◌, ◌<◌, ◌≤◌, true, false, pos, ◌+ℤ◌, Ok, Err, vec_len, MatchOption};
ghost use Rattle.sink.specs.declared.fault.Cause.TheVariants.{NoSpace};
ghost use Rattle.transposer.specs.Shift.{in_range, Folds};
ghost use Rattle.builder_sinks.specs.Examples.{Folding};

use sink::calls::NoteOn;
use sink::fault::Cause;
use sink::sink::Sink;
use transposer::shift::Shift;
use voice_log::line::Line;
use voice_log::log::VoiceLog;

// The key that a key becomes under a shift, if it is one. The keys 120, 5 and 100 under shifts of 12, -12 and 40 become 120, 5 and 116.
pub fn folded(semitones: i32, key: u8) -> Option<u8>
    ensures key { MatchOption result (in_range semitones ≡ false) (λ k. (in_range semitones ≡ true) × Folds (pos key +ℤ semitones) k) }
    ensures worked { Folding }
{
    let shift = Shift::try_from(semitones).ok()?;
    Some(shift.moved(key))
}

// The note of the examples' start.
const FIRST: NoteOn = NoteOn {
    channel: 0,
    key: 60,
    velocity: 100,
};

// What a log answers to a first start.
pub fn first_start(lines: Vec<Line>) -> Result<u16, Cause>
    ensures too_few { vec_len lines < 2 → result ≡ Err NoSpace }
    ensures enough { 2 ≤ vec_len lines → result ≡ Ok 0 }
{
    let mut log = VoiceLog::new(lines);
    log.start(0, FIRST)
}

// Whether a log is ready again after its first start.
pub fn second_start(lines: Vec<Line>) -> Result<(), Cause>
    ensures too_few { vec_len lines < 4 → result ≡ Err NoSpace }
    ensures enough { 4 ≤ vec_len lines → result ≡ Ok tt }
{
    let mut log = VoiceLog::new(lines);
    let _ = log.start(0, FIRST);
    log.ready()
}
