ghost use Rattle.std.specs.Prelude.{◌≡◌, Some};
ghost use Rattle.sink.specs.Calls.{finished};
ghost use Rattle.scripting.specs.Acting.{fed_answer, set_answer};
ghost use Rattle.scripting.specs.Answers.{first_text, starts_text, others_text, answer_text};

use run::{DeniedStart, Tally, TooManyBytes};
use sink::fault::refusal::Refusal;
use stacks::console_stack::ConsoleFault;
use std::fmt;

// What an act is answered, as it is printed. No `Result`, since a tally is an answer too.
#[derive(Clone, Copy)]
pub enum Answer<F> {
    Done,
    // the bytes of the run would pass their limit
    TooManyBytes,
    // the stack refused
    Denied(F),
    Counted(Tally<F>),
}

// What a feed is answered.
impl<F> From<Result<(), TooManyBytes>> for Answer<F> {
    ghost from_gives = { λ fed answer. answer ≡ fed_answer fed };

    fn from(fed: Result<(), TooManyBytes>) -> Answer<F> {
        match fed {
            Ok(()) => Answer::Done,
            Err(TooManyBytes) => Answer::TooManyBytes,
        }
    }
}

// What a setting is answered.
impl From<Result<(), ConsoleFault>> for Answer<ConsoleFault> {
    ghost from_gives = { λ set answer. answer ≡ set_answer (finished set) };

    fn from(set: Result<(), ConsoleFault>) -> Answer<ConsoleFault> {
        match set {
            Ok(()) => Answer::Done,
            Err(fault) => Answer::Denied(fault),
        }
    }
}

// The first denied start of a tally, as text.
#[derive(Clone, Copy)]
struct First<'t, F>(&'t Option<DeniedStart<F>>);

impl<'t, F: Refusal> fmt::Display for First<'t, F> {
    ghost output = { λ first. Some (first_text F.Refusal.denial first.0.now) };

    fn fmt<W: fmt::Write>(&self, f: &mut fmt::Formatter<W>) -> fmt::Result {
        match self.0 {
            None => write!(f, "none"),
            Some(first) => write!(
                f,
                "{},{},{},{},{}",
                first.fault.number(),
                first.fault.depth(),
                first.place,
                first.channel,
                first.key
            ),
        }
    }
}

// What a tally says of the starts, as text.
#[derive(Clone, Copy)]
struct Starts<'t, F>(&'t Tally<F>);

impl<'t, F: Refusal> fmt::Display for Starts<'t, F> {
    ghost output = { λ t. Some (starts_text t.0.now) };

    fn fmt<W: fmt::Write>(&self, f: &mut fmt::Formatter<W>) -> fmt::Result {
        write!(
            f,
            "count={} note_ons={} taken={} denied={}",
            self.0.count, self.0.note_ons, self.0.taken, self.0.denied
        )
    }
}

// The rest of a tally, as text.
#[derive(Clone, Copy)]
struct Others<'t, F>(&'t Tally<F>);

impl<'t, F: Refusal> fmt::Display for Others<'t, F> {
    ghost output = { λ t. Some (others_text F.Refusal.denial t.0.now) };

    fn fmt<W: fmt::Write>(&self, f: &mut fmt::Formatter<W>) -> fmt::Result {
        write!(
            f,
            "returned={} stray={} passed={} first={}",
            self.0.returned,
            self.0.stray,
            self.0.passed,
            First(&self.0.first)
        )
    }
}

impl<F: Refusal> fmt::Display for Answer<F> {
    ghost output = { λ a. Some (answer_text F.Refusal.denial a) };

    fn fmt<W: fmt::Write>(&self, f: &mut fmt::Formatter<W>) -> fmt::Result {
        match self {
            Answer::Done => write!(f, "ok"),
            Answer::TooManyBytes => write!(f, "denied 9"),
            Answer::Denied(fault) => write!(f, "denied {} {}", fault.number(), fault.depth()),
            Answer::Counted(tally) => write!(f, "tally {} {}", Starts(tally), Others(tally)),
        }
    }
}
