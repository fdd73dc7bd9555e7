ghost use Rattle.std.specs.Prelude.{◌≡◌};
ghost use Rattle.script.specs.declared.unread.Unread.TheVariants.{Memory};

use std::alloc::{AllocError, AllocFailed};

// Why a line gives no act.
#[derive(Drop)]
pub(crate) enum Unread {
    Memory(AllocError),
    Unreadable,
}

impl From<AllocFailed<u8>> for Unread {
    ghost from_gives = { λ _ unread. (error : _) × unread ≡ Memory error };

    fn from(failed: AllocFailed<u8>) -> Unread {
        Unread::Memory(AllocError::from(failed))
    }
}
