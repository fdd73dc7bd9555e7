ghost use Rattle.std.specs.Prelude.{◌<◌};

// A key of a channel.
#[derive(Clone, Copy, PartialEq, Eq)]
pub struct Key {
    pub(crate) channel: u8,
    pub(crate) number: u8,
    ghost channels: { channel < 16 },
    ghost numbers: { number < 128 },
}
