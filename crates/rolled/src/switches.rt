ghost use Rattle.std.specs.Prelude.{◌≡◌, length};

// One switch for each of the 16 channels, in fixed memory.
#[derive(Drop)]
pub struct Switches {
    on: [bool; 16],
    ghost sixteen: { length on ≡ 16 },
}

pub mod calls;
