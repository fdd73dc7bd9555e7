ghost use Rattle.std.specs.Prelude.{◌≤◌};

// Which channel is split, the first key of its high side, and the channels that its low and its high side go to.
#[derive(Clone, Copy, Debug)]
pub struct Zones {
    pub channel: u8,
    pub key: u8,
    pub low: u8,
    pub high: u8,
    ghost source: { channel ≤ 15 },
    ghost point: { key ≤ 128 },
    ghost bass: { low ≤ 15 },
    ghost treble: { high ≤ 15 },
}

pub mod calls;
