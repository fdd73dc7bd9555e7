ghost use Rattle.std.specs.Prelude.{◌≡◌, length};
ghost use Rattle.roll.specs.Rolls.{listed};

use crate::note::Note;
use crate::roll::Roll;

impl Roll {
    // The notes, the oldest first.
    pub fn notes(&self) -> &[Note]
        ensures { result.now ≡ listed self.now }
    {
        &self.notes[..self.count]
    }

    // How many notes the roll has.
    pub fn len(&self) -> usize
        ensures listed { result ≡ length (listed self.now) }
        ensures count { result ≡ self.now.count }
    {
        self.count
    }
}
