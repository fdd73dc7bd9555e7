ghost use Rattle.std.specs.Prelude.{◌≡◌, false, replicate, slice_index_or, slice_set};

use crate::switches::Switches;

impl Switches {
    pub fn all_off() -> Switches
        ensures { result.on ≡ replicate 16 false }
    {
        Switches { on: [false; 16] }
    }

    // Whether a channel's switch is on; there is none past channel 15.
    pub fn is_on(&self, channel: u8) -> bool
        ensures { result ≡ slice_index_or self.now.on channel false }
    {
        self.on.get(usize::from(channel)).copied().unwrap_or(false)
    }

    // Turns a channel's switch on or off.
    pub fn put(&mut self, channel: u8, on: bool)
        ensures { self.new.on ≡ slice_set self.old.on channel on }
    {
        // A write through `get_mut` gets no proof: its contract does not say what the array ends as.
        let i = usize::from(channel);
        if i < self.on.len() {
            self.on[i] = on;
        }
    }
}
