ghost use Rattle.std.specs.Prelude.{◌≡◌, ◌<◌};
ghost use Rattle.run.specs.Counting.{spot};

// A key of a channel.
#[derive(Clone, Copy)]
pub(crate) struct Key {
    pub(crate) channel: u8,
    pub(crate) number: u8,
    ghost channel_in_range: { channel < 16 },
    ghost number_in_range: { number < 128 },
}

impl Key {
    // Its place in the key table.
    pub(crate) fn index(self) -> usize
        ensures { result ≡ spot self.channel self.number }
    {
        128 * usize::from(self.channel) + usize::from(self.number)
    }
}
