use std::alloc::AllocError;
use std::io;
use thiserror::Error;

/// Why the whole drawing was not written.
#[derive(Clone, Copy, Debug, PartialEq, Eq, Error)]
pub enum DrawError {
    /// The writer returned an error. It is not known how much was written.
    #[error("cannot write the drawing")]
    Write,
    /// Memory was refused.
    #[error("no memory")]
    NoMemory,
}

impl From<io::Error> for DrawError {
    fn from(_: io::Error) -> Self {
        DrawError::Write
    }
}

impl From<AllocError> for DrawError {
    fn from(_: AllocError) -> Self {
        DrawError::NoMemory
    }
}
