ghost use Rattle.std.specs.Prelude.{◌≡◌, ◌+◌, ◌^◌, ◌<◌, ◌≤◌, Some, codes};
ghost use Rattle.sink.specs.Calls.{started, finished};
ghost use Rattle.run.specs.Counting.{total, fresh, tally_of, started_by, returned_by};

use crate::counts::{Counts, DeniedStart, Tally, TooManyBytes};
use crate::player::keys::Key;
use std::fmt;

impl<F: Copy> Counts<F> {
    pub(crate) fn new() -> Counts<F>
        ensures { result ≡ fresh }
    {
        Counts {
            note_ons: 0,
            taken: 0,
            denied: 0,
            returned: 0,
            stray: 0,
            passed: 0,
            first: None,
        }
    }

    // Counts a start by its answer; of the denied ones the first stays.
    pub(crate) fn count_start(&mut self, place: u64, key: Key, answer: Result<u16, F>)
        requires room { total self.old < 2 ^ 62 }
        ensures counts { self.new ≡ started_by place key.channel key.number (started answer) self.old }
        ensures total { total self.new ≤ total self.old + 2 }
    {
        self.note_ons += 1;
        match answer {
            Ok(_) => self.taken += 1,
            Err(fault) => {
                self.denied += 1;
                let denied = Some(DeniedStart {
                    fault,
                    place,
                    channel: key.channel,
                    key: key.number,
                });
                self.first = self.first.or(denied);
            }
        }
    }

    // Counts a release by its answer.
    pub(crate) fn count_release(&mut self, answer: Result<(), F>)
        requires room { total self.old < 2 ^ 63 }
        ensures counts { self.new ≡ returned_by (finished answer) self.old }
        ensures total { total self.new ≤ total self.old + 1 }
    {
        if answer.is_ok() {
            self.returned += 1;
        }
    }

    // The tally of a run that has read `count` bytes.
    pub(crate) fn tally(self, count: u64) -> Tally<F>
        ensures { result ≡ tally_of count self }
    {
        Tally {
            count,
            note_ons: self.note_ons,
            taken: self.taken,
            denied: self.denied,
            returned: self.returned,
            stray: self.stray,
            passed: self.passed,
            first: self.first,
        }
    }
}

impl TooManyBytes {
    // The number of this refusal; it reaches no sink, so it has no depth.
    pub fn number(self) -> u8
        ensures { result ≡ 9 }
    {
        9
    }
}

impl fmt::Display for TooManyBytes {
    ghost output = { λ _. Some (codes "bytes would pass 4,000,000,000") };

    fn fmt<W: fmt::Write>(&self, f: &mut fmt::Formatter<W>) -> fmt::Result {
        write!(f, "bytes would pass 4,000,000,000")
    }
}
