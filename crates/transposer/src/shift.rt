ghost use Rattle.std.specs.Prelude.{◌≡◌, true};
ghost use Rattle.transposer.specs.Shift.{in_range};

// By how many semitones keys are moved, -48 to 48.
#[derive(Clone, Copy, Debug)]
pub struct Shift {
    semitones: i32,
    ghost within: { in_range semitones ≡ true },
}

pub mod calls;
