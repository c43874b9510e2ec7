// Why a command was not done.
ghost use Rattle.std.specs.Prelude.{◌≡◌};
ghost use Rattle.rehearsal.specs.declared.failure.Failure.TheVariants.{Script, Memory};

use crate::script_error::ScriptError;
use std::alloc::AllocError;
use std::fmt;

#[derive(Clone, Copy, Debug, PartialEq, Eq)]
pub enum Failure {
    /// The line asks for what cannot be done. Nothing has changed.
    Script(ScriptError),
    /// There is no memory left.
    Memory(AllocError),
}

impl From<ScriptError> for Failure {
    ghost from_gives = { λ x y. y ≡ Script x };

    fn from(error: ScriptError) -> Failure {
        Failure::Script(error)
    }
}

impl From<AllocError> for Failure {
    ghost from_gives = { λ x y. y ≡ Memory x };

    fn from(error: AllocError) -> Failure {
        Failure::Memory(error)
    }
}

// Text fails only for want of memory.
impl From<fmt::Error> for Failure {
    ghost from_gives = { λ _ y. y ≡ Memory (record {}) };

    fn from(_: fmt::Error) -> Failure {
        Failure::Memory(AllocError)
    }
}
