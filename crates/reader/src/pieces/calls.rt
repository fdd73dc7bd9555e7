ghost use Rattle.std.specs.Prelude.{◌≡◌, None};
ghost use Rattle.reader.specs.Ahead.{Numbered};

use crate::pieces::{Piece, PlaceOverflow};

impl<'p> Piece<'p> {
    // A piece with these bytes, of which the first has place 0.
    pub fn new(bytes: &'p [u8]) -> Piece<'p>
        ensures place { result.place ≡ 0 }
        ensures rest { result.rest.now ≡ bytes.now }
        ensures pending { result.pending ≡ None }
    {
        Piece {
            place: 0,
            rest: bytes,
            pending: None,
        }
    }

    // Has the places of the bytes not read yet count from `first` on. Refused, with nothing changed,
    // where the place behind the last one would pass 64 bits.
    pub fn number_from(&mut self, first: u64) -> Result<(), PlaceOverflow>
        ensures { Numbered self.old first result self.new }
    {
        first
            .checked_add(self.rest.len() as u64)
            .ok_or(PlaceOverflow)?;
        self.place = first;
        Ok(())
    }
}
