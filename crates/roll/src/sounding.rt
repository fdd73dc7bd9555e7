ghost use Rattle.std.specs.Prelude.{◌≡◌, length};
ghost use Rattle.roll.specs.Voices.{tally};

// Which of the tickets 0 to 127 sound, each with what its sink must know of it till it stops.
// A table with a count beside it and no map: an end has fixed memory.
#[derive(Drop)]
pub struct Sounding<V> {
    voices: [Option<V>; 128],
    count: usize,
    ghost long: { length voices ≡ 128 },
    ghost counted: { count ≡ tally voices },
}

pub mod calls;
