ghost use Rattle.std.specs.Prelude.{◌≡◌, ◌+◌, ◌<◌, ◌≤◌, length, min, vec_len};
ghost use Rattle.ends.specs.Buffers.{Pushed, Appended};

use crate::buffer::Buffer;

impl<T: Copy> Buffer<T> {
    // A buffer over these places, of which it uses the first `most` at most.
    pub fn new(items: Vec<T>, most: usize) -> Buffer<T>
        ensures items { result.items ≡ items }
        ensures written { result.written ≡ 0 }
        ensures room { result.room ≡ min (vec_len items) most }
    {
        let room = items.len().min(most);
        Buffer {
            items,
            room,
            written: 0,
        }
    }

    // Writes the next place, and leaves the others as they are. Where none is free, nothing changes.
    pub fn push(&mut self, item: T)
        ensures free { self.old.written < self.old.room → Pushed item self.old self.new }
        ensures full { self.old.room ≤ self.old.written → self.new ≡ self.old }
    {
        if self.written < self.room {
            self.items[self.written] = item;
            self.written += 1;
        }
    }

    // Writes the next places, and leaves the others as they are. Where too few are free, nothing changes.
    pub fn append(&mut self, items: &[T])
        ensures free { self.old.written + length items.now ≤ self.old.room → Appended items.now self.old self.new }
        ensures full { self.old.room < self.old.written + length items.now → self.new ≡ self.old }
    {
        if items.len() <= self.free() {
            let end = self.written + items.len();
            self.items[self.written..end].copy_from_slice(items);
            self.written = end;
        }
    }

    // Hands the places back, with how many of them are written.
    pub fn finish(self) -> (Vec<T>, usize)
        ensures items { result.0 ≡ self.items }
        ensures written { result.1 ≡ self.written }
    {
        let Buffer {
            items,
            room: _,
            written,
        } = self;
        (items, written)
    }
}
