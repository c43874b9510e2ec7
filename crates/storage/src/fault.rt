// Why something could not be done.
ghost use Rattle.std.specs.Prelude.{◌≡◌};
ghost use Rattle.storage.specs.declared.fault.Fault.TheVariants.{Memory, System};

use std::alloc::{AllocError, AllocFailed};
use std::io;

#[derive(Clone, Copy, Debug, PartialEq, Eq)]
pub enum Fault {
    /// There is no memory for it.
    Memory,
    /// The file or the line failed.
    System,
}

impl From<AllocError> for Fault {
    ghost from_gives = { λ _ r. r ≡ Memory };

    fn from(_error: AllocError) -> Fault {
        Fault::Memory
    }
}

impl<T: Drop> From<AllocFailed<T>> for Fault {
    ghost from_gives = { λ _ r. r ≡ Memory };

    fn from(_error: AllocFailed<T>) -> Fault {
        Fault::Memory
    }
}

impl From<io::Error> for Fault {
    ghost from_gives = { λ _ r. r ≡ System };

    fn from(_error: io::Error) -> Fault {
        Fault::System
    }
}
