ghost use Rattle.std.specs.Prelude.{◌≤◌};

// How many notes may sound at a time, 1 to 64.
#[derive(Clone, Copy, Debug)]
pub struct Limit {
    pub notes: u8,
    ghost least: { 1 ≤ notes },
    ghost most: { notes ≤ 64 },
}

pub mod calls;
