ghost use Rattle.std.specs.Prelude.{◌≡◌, Some, codes};
ghost use Rattle.listing.specs.declared.errors.ListError.TheVariants.{Memory, Places};
ghost use Rattle.listing.specs.Errors.{error_text};

use reader::PlaceOverflow;
use std::alloc::AllocError;
use std::error::Error;
use std::fmt;

// Why a piece is not listed.
#[derive(Clone, Copy, Debug)]
pub enum ListError {
    // there is no memory for its lines
    Memory,
    // its places would pass 64 bits
    Places,
}

impl fmt::Display for ListError {
    ghost output = { λ e. Some (error_text e) };

    fn fmt<W: fmt::Write>(&self, f: &mut fmt::Formatter<W>) -> fmt::Result {
        match self {
            ListError::Memory => write!(f, "no memory for the lines"),
            ListError::Places => write!(f, "places pass 64 bits"),
        }
    }
}

impl Error for ListError {}

impl From<AllocError> for ListError {
    ghost from_gives = { λ _ e. e ≡ Memory };

    fn from(_error: AllocError) -> ListError {
        ListError::Memory
    }
}

impl From<PlaceOverflow> for ListError {
    ghost from_gives = { λ _ e. e ≡ Places };

    fn from(_error: PlaceOverflow) -> ListError {
        ListError::Places
    }
}
