ghost use Rattle.std.specs.Prelude.{◌≡◌};
ghost use Rattle.report.specs.declared.error.ReportError.TheVariants.{NoMemory, Write};

use std::alloc::AllocError;
use std::io;
use thiserror::Error;

/// Why the whole report was not written.
#[derive(Clone, Copy, Debug, PartialEq, Eq, Error)]
pub enum ReportError {
    /// The writer returned an error. It is not known how much was written.
    #[error("cannot write the report")]
    Write,
    /// Memory was refused.
    #[error("no memory")]
    NoMemory,
}

impl From<io::Error> for ReportError {
    ghost from_gives = { λ _ error. error ≡ Write };

    fn from(_: io::Error) -> Self {
        ReportError::Write
    }
}

impl From<AllocError> for ReportError {
    ghost from_gives = { λ _ error. error ≡ NoMemory };

    fn from(_: AllocError) -> Self {
        ReportError::NoMemory
    }
}
