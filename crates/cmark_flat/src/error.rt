//! The reasons why bytes cannot be decoded.

ghost use Rattle.std.specs.Prelude.{◌≡◌};
ghost use Rattle.cmark_flat.specs.declared.error.DecodeError.TheVariants.{NoMemory};

use std::alloc::{AllocError, AllocFailed};

/// The reason why bytes cannot be decoded.
#[derive(Clone, Copy, Debug, PartialEq, Eq)]
pub enum DecodeError {
    /// Memory was refused.
    NoMemory,
    /// The bytes are not the flat records of events.
    Malformed,
}

impl From<AllocError> for DecodeError {
    ghost from_gives = { λ _ e. e ≡ NoMemory };

    fn from(_error: AllocError) -> DecodeError {
        DecodeError::NoMemory
    }
}

impl<T: Drop> From<AllocFailed<T>> for DecodeError {
    ghost from_gives = { λ _ e. e ≡ NoMemory };

    fn from(_error: AllocFailed<T>) -> DecodeError {
        DecodeError::NoMemory
    }
}
