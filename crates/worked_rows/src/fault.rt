// Why a row is told as something else.
use khepri_terms::TextFault;
use std::alloc::{AllocError, AllocFailed};

#[derive(Clone, Copy, Debug, PartialEq, Eq)]
pub enum Fault {
    /// A library refused a text.
    Refused,
    /// What is given is no row.
    NoRow,
    NoMemory,
}

/// How a fault is told: `!` is a refusal.
pub fn word_of(fault: Fault) -> &'static [u8] {
    match fault {
        Fault::Refused => b"!",
        Fault::NoRow => b"no row",
        Fault::NoMemory => b"no memory",
    }
}

impl From<TextFault> for Fault {
    fn from(fault: TextFault) -> Self {
        match fault {
            TextFault::Bad => Fault::Refused,
            TextFault::NoMemory => Fault::NoMemory,
        }
    }
}

impl From<AllocError> for Fault {
    fn from(_: AllocError) -> Self {
        Fault::NoMemory
    }
}

impl<T: Drop> From<AllocFailed<T>> for Fault {
    fn from(_: AllocFailed<T>) -> Self {
        Fault::NoMemory
    }
}
