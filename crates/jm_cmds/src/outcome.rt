//! What a reader that takes memory answers in place of a value.

ghost use Rattle.std.specs.Prelude.{◌≡◌};
ghost use Rattle.jm_cmds.specs.declared.outcome.ReadError.TheVariants.{Memory};

use std::alloc::{AllocError, AllocFailed};

/// Why a reader gave nothing.
#[derive(Clone, Copy, PartialEq, Eq, Debug, Drop)]
pub enum ReadError<F> {
    /// Memory was refused. Nothing is said of the octets.
    Memory,
    /// What is wrong with the octets.
    Fault(F),
}

impl<F> From<AllocError> for ReadError<F> {
    ghost from_gives = { λ _ e. e ≡ Memory };

    fn from(_e: AllocError) -> ReadError<F> {
        ReadError::Memory
    }
}

impl<F, T: Drop> From<AllocFailed<T>> for ReadError<F> {
    ghost from_gives = { λ _ e. e ≡ Memory };

    fn from(_e: AllocFailed<T>) -> ReadError<F> {
        ReadError::Memory
    }
}
