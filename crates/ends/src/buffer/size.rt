ghost use Rattle.std.specs.Prelude.{◌≡◌, ◌-◌};

use crate::buffer::Buffer;

impl<T: Copy> Buffer<T> {
    // How many places are written.
    pub fn written(&self) -> usize
        ensures { result ≡ self.now.written }
    {
        self.written
    }

    // How many places may still be written.
    pub fn free(&self) -> usize
        ensures { result ≡ self.now.room - self.now.written }
    {
        self.room - self.written
    }
}
