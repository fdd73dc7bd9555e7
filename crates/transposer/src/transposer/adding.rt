ghost use Rattle.std.specs.Prelude.{◌≡◌, ◌+ℤ◌};
ghost use Rattle.transposer.specs.Adding.{ShiftsAdd};

use crate::transposer::Transposer;
use sink::sink::Sink;

// By how many semitones two transposers, one over the other, move a key together, where neither has to fold it.
pub fn sum_of_shifts<S: Sink>(both: &Transposer<Transposer<S>>) -> i32
    ensures sum { result ≡ both.now.shift.semitones +ℤ both.now.below.shift.semitones }
    ensures adds { ShiftsAdd S.Sink.does result both.now }
{
    both.shift.plus(&both.below.shift)
}
