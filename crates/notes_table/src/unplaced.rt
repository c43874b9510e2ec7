// Why something could not be put into a table.
ghost use Rattle.std.specs.Prelude.{◌≡◌};
ghost use Rattle.notes_table.specs.declared.unplaced.Unplaced.TheVariants.{Memory};

use std::alloc::{AllocError, AllocFailed};

/// Nothing was changed.
#[derive(Clone, Copy, PartialEq, Eq, Debug)]
pub enum Unplaced {
    /// There are as many numbers as a table has at most, and this one is not among them.
    Full,
    /// There is no memory for one more.
    Memory,
}

impl From<AllocError> for Unplaced {
    ghost from_gives = { λ _ r. r ≡ Memory };

    fn from(_: AllocError) -> Unplaced {
        Unplaced::Memory
    }
}

impl<T: Drop> From<AllocFailed<T>> for Unplaced {
    ghost from_gives = { λ _ r. r ≡ Memory };

    fn from(_: AllocFailed<T>) -> Unplaced {
        Unplaced::Memory
    }
}
