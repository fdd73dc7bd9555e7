ghost use Rattle.std.specs.Prelude.{◌≡◌, ◌+◌, ◌^◌, ◌<◌, true, length};
ghost use Rattle.reader.specs.Ranges.{numberless};

use crate::items::Item;

mod calls;

// The places of a piece would pass 64 bits.
#[derive(Clone, Copy, Debug)]
pub struct PlaceOverflow;

// What is left of a piece: the bytes not read yet, the place of the first of them, and a second
// item of the byte read last.
#[derive(Drop)]
pub struct Piece<'p> {
    pub(crate) place: u64,
    pub(crate) rest: &'p [u8],
    pub(crate) pending: Option<Item<'p>>,
    ghost fits: { place + length rest.now < 2 ^ 64 },
    ghost ranged: { numberless pending ≡ true },
}
