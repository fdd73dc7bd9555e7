// Lists a byte stream: one line of text for each item.
#![tactic(auto)]

ghost use Rattle.std.specs.Prelude.{◌≡◌, IfOk, string_bytes, OnOk};
ghost use Rattle.reader.specs.Ahead.{ahead, ending};
ghost use Rattle.reader.specs.declared.states.State.TheVariants.{Idle};
ghost use Rattle.listing.specs.Lines.{text_of};
ghost use Rattle.listing.specs.Listings.{Lists};

pub use errors::ListError;
pub use lines::{Described, Line};
use reader::{Piece, Reader};
use std::alloc::{AllocError, Global};

pub mod errors;
pub mod lines;

// A stream that is listed piece by piece: the reader between two pieces, and the place of the next byte.
#[derive(Drop)]
pub struct Listing {
    reader: Reader,
    place: u64,
}

impl Listing {
    pub fn new() -> Listing
        ensures state { result.reader.state ≡ Idle }
        ensures place { result.place ≡ 0 }
    {
        Listing {
            reader: Reader::new(),
            place: 0,
        }
    }

    // The lines of the next piece. A refusal changes nothing.
    pub fn list(&mut self, heap: Global, bytes: &[u8]) -> Result<String, ListError>
        ensures { Lists self.old bytes.now result self.new }
    {
        let mut reader = self.reader;
        let mut piece = Piece::new(bytes);
        piece.number_from(self.place)?;
        let text = text(heap, &mut reader, &mut piece)?;
        self.reader = reader;
        self.place += bytes.len() as u64;
        Ok(text)
    }
}

// The lines of all that a piece still holds for a reader.
fn text(heap: Global, reader: &mut Reader, piece: &mut Piece) -> Result<String, AllocError>
    ensures text { IfOk result (λ t. string_bytes t ≡ text_of (ahead reader.old.state piece.old)) }
    ensures state { OnOk result (reader.new.state ≡ ending reader.old.state piece.old) }
{
    let mut text = String::new(heap);
    while let Some(item) = reader.next(piece) {
        writeln!(text, "{}", Line(item))?;
    }
    Ok(text)
}
