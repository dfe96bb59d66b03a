// Why a line cannot be read.
use std::alloc::{AllocError, AllocFailed};
use std::num::ParseIntError;
use thiserror::Error;

#[derive(Debug, Drop, Error)]
pub enum ScriptError {
    #[error("a digit 0 to 9 or a to f is wanted")]
    NoHexDigit,
    #[error("digits come in pairs")]
    OddDigits,
    #[error("a fault's code is 1 to 255")]
    FaultCode,
    #[error("no such line is known")]
    UnknownLine,
    #[error("{0}")]
    Number(#[from] ParseIntError),
    #[error("{0}")]
    Memory(#[from] AllocError),
}

impl<T: Drop> From<AllocFailed<T>> for ScriptError {
    fn from(error: AllocFailed<T>) -> ScriptError {
        ScriptError::Memory(AllocError::from(error))
    }
}
