ghost use Rattle.std.specs.Prelude.{◌≤◌, vec_len};

// Owns the places that it is handed, and has written the first `written` of them; it uses `room` of them at most.
// A `Vec` with a length beside it: the memory of an end is fixed, and goes back whole with how much of it is written.
#[derive(Drop)]
pub struct Buffer<T> {
    items: Vec<T>,
    room: usize,
    written: usize,
    ghost there: { room ≤ vec_len items },
    ghost used: { written ≤ room },
}

pub mod calls;
pub mod size;
