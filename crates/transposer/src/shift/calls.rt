ghost use Rattle.std.specs.Prelude.{◌≡◌, ℕ, pos, ◌+ℤ◌, ◌-ℤ◌, ◌<ℤ◌};
ghost use Rattle.transposer.specs.Shift.{Folds};
ghost use Rattle.transposer.specs.Shifts.{ShiftOf};

use crate::shift::Shift;
use sink::fault::Cause;

// A number that is no key, an octave nearer to the keys.
fn octave_nearer(number: i32) -> i32
    ensures off { pos 127 <ℤ number → result ≡ number -ℤ pos 12 }
    ensures on { number <ℤ pos 0 → result ≡ number +ℤ pos 12 }
{
    if number > 127 {
        number - 12
    } else {
        number + 12
    }
}

impl Shift {
    pub fn none() -> Shift
        ensures { result.semitones ≡ pos 0 }
    {
        Shift { semitones: 0 }
    }

    // By how many semitones the two move a key together.
    pub fn plus(&self, other: &Shift) -> i32
        ensures { result ≡ self.now.semitones +ℤ other.now.semitones }
    {
        self.semitones + other.semitones
    }

    // The key that a key becomes: moved, and folded by octaves until it is a key again.
    pub fn moved(&self, key: u8) -> u8
        ensures folds { Folds (pos key +ℤ self.now.semitones) result }
        ensures only { (k : ℕ) → Folds (pos key +ℤ self.now.semitones) k → k ≡ result }
    {
        let mut moved = i32::from(key) + self.semitones;
        while moved < 0 || moved > 127 {
            moved = octave_nearer(moved);
        }
        moved as u8
    }
}

// The shift of a number of semitones, if it is one.
impl TryFrom<i32> for Shift {
    type Error = Cause;

    ghost try_from_gives = { ShiftOf };

    fn try_from(semitones: i32) -> Result<Shift, Cause> {
        if (-48..=48).contains(&semitones) {
            Ok(Shift { semitones })
        } else {
            Err(Cause::ValueOutOfRange)
        }
    }
}
