ghost use Rattle.std.specs.Prelude.{◌≡◌};
ghost use Rattle.disk.specs.declared.error.DiskError.{DiskError};
ghost use Rattle.journal.specs.Errors.{journal_error, cause_of};
ghost use Rattle.journal.specs.declared.error.JournalError.TheVariants.{NoMemory};
ghost use Rattle.journal.specs.declared.error.AppendError.TheVariants.{Before, Within};

use disk::DiskError;
use std::alloc::{AllocError, AllocFailed};
use thiserror::Error;

/// Why a call of a journal failed.
#[derive(Clone, Copy, Debug, PartialEq, Eq, Error)]
pub enum JournalError {
    /// The device failed.
    #[error("the device failed")]
    Device,
    /// Memory was refused.
    #[error("no memory")]
    NoMemory,
    /// At this position the file has neither a whole record nor a closed gate.
    #[error("damaged at {0}")]
    Damaged(u64),
    /// The position of the new closed gate would not be below the limit.
    #[error("full")]
    Full,
}

/// At which point an append was refused.
#[derive(Clone, Copy, Debug, PartialEq, Eq, Error)]
pub enum AppendError {
    /// Before any call of the disk: nothing on it changed, and the journal ends where it did. The cause is `Full` or `NoMemory`.
    #[error("{0}")]
    Before(JournalError),
    /// During a call of the disk: all that was to be appended may be there, or nothing of it.
    #[error("{0}")]
    Within(DiskError),
}

impl From<DiskError> for JournalError {
    ghost from_gives = { λ cause error. error ≡ journal_error cause };

    fn from(error: DiskError) -> Self {
        match error {
            DiskError::Device => JournalError::Device,
            DiskError::NoMemory => JournalError::NoMemory,
        }
    }
}

impl From<AllocError> for JournalError {
    ghost from_gives = { λ _ error. error ≡ NoMemory };

    fn from(_: AllocError) -> Self {
        JournalError::NoMemory
    }
}

impl<T: Drop> From<AllocFailed<T>> for JournalError {
    ghost from_gives = { λ _ error. error ≡ NoMemory };

    fn from(_: AllocFailed<T>) -> Self {
        JournalError::NoMemory
    }
}

impl From<AppendError> for JournalError {
    ghost from_gives = { λ refused error. error ≡ cause_of refused };

    fn from(error: AppendError) -> Self {
        match error {
            AppendError::Before(cause) => cause,
            AppendError::Within(cause) => cause.into(),
        }
    }
}

impl From<DiskError> for AppendError {
    ghost from_gives = { λ cause error. error ≡ Within cause };

    fn from(error: DiskError) -> Self {
        AppendError::Within(error)
    }
}

impl From<AllocError> for AppendError {
    ghost from_gives = { λ _ error. error ≡ Before NoMemory };

    fn from(_: AllocError) -> Self {
        AppendError::Before(JournalError::NoMemory)
    }
}
