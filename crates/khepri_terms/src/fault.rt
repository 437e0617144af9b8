ghost use Rattle.std.specs.Prelude.{◌≡◌};
ghost use Rattle.khepri_terms.specs.declared.fault.NameFault.TheVariants as names;
ghost use Rattle.khepri_terms.specs.declared.fault.RecFault.TheVariants as recs;
ghost use Rattle.khepri_terms.specs.declared.fault.TextFault.TheVariants as texts;

use std::alloc::{AllocError, AllocFailed};
use thiserror::Error;

/// Why bytes are no name.
#[derive(Debug, Drop, Error)]
pub enum NameFault {
    /// There are none.
    #[error("the name is empty")]
    Empty,
    /// There are over 255.
    #[error("the name has over 255 bytes")]
    Long,
    #[error("no memory")]
    NoMemory,
}

/// Why a text gave no value.
#[derive(Debug, Drop, Error)]
pub enum TextFault {
    /// No spelling begins there.
    #[error("the text is no spelling")]
    Bad,
    #[error("no memory")]
    NoMemory,
}

/// Why a record took no field.
#[derive(Debug, Drop, Error)]
pub enum RecFault {
    /// It would have over 64 fields or over 4,096 bytes of text.
    #[error("the record is full")]
    Full,
    #[error("no memory")]
    NoMemory,
}

impl From<AllocError> for NameFault {
    ghost from_gives = { λ _ e. e ≡ names.NoMemory };

    fn from(_: AllocError) -> Self {
        NameFault::NoMemory
    }
}

impl From<AllocError> for TextFault {
    ghost from_gives = { λ _ e. e ≡ texts.NoMemory };

    fn from(_: AllocError) -> Self {
        TextFault::NoMemory
    }
}

impl<T: Drop> From<AllocFailed<T>> for TextFault {
    ghost from_gives = { λ _ e. e ≡ texts.NoMemory };

    fn from(_: AllocFailed<T>) -> Self {
        TextFault::NoMemory
    }
}

impl From<AllocError> for RecFault {
    ghost from_gives = { λ _ e. e ≡ recs.NoMemory };

    fn from(_: AllocError) -> Self {
        RecFault::NoMemory
    }
}

impl<T: Drop> From<AllocFailed<T>> for RecFault {
    ghost from_gives = { λ _ e. e ≡ recs.NoMemory };

    fn from(_: AllocFailed<T>) -> Self {
        RecFault::NoMemory
    }
}
