ghost use Rattle.std.specs.Prelude.{◌≡◌};
ghost use Rattle.disk.specs.declared.error.DiskError.{DiskError};
ghost use Rattle.vault.specs.Errors.{vault_error};
ghost use Rattle.vault.specs.declared.error.VaultError.TheVariants.{NoMemory};

use disk::{DiskError, Side};
use std::alloc::{AllocError, AllocFailed};
use thiserror::Error;

/// Why a call of a vault failed.
#[derive(Clone, Copy, Debug, PartialEq, Eq, Error)]
pub enum VaultError {
    /// The device failed.
    #[error("the device failed")]
    Device,
    /// Memory was refused.
    #[error("no memory")]
    NoMemory,
    /// The two files stand for nothing: a check of this side failed, at this position.
    #[error("damaged {0:?} at {1}")]
    Damaged(Side, u64),
    /// The record or the side would reach past the limit, or the generation is the greatest.
    #[error("full")]
    Full,
    /// No side is open.
    #[error("not a store")]
    NotAStore,
    /// A call of the disk returned an error before: the store must be opened again.
    #[error("halted")]
    Halted,
    /// A file is not empty.
    #[error("exists")]
    Exists,
}

impl From<DiskError> for VaultError {
    ghost from_gives = { λ cause error. error ≡ vault_error cause };

    fn from(error: DiskError) -> Self {
        match error {
            DiskError::Device => VaultError::Device,
            DiskError::NoMemory => VaultError::NoMemory,
        }
    }
}

impl From<AllocError> for VaultError {
    ghost from_gives = { λ _ error. error ≡ NoMemory };

    fn from(_: AllocError) -> Self {
        VaultError::NoMemory
    }
}

impl<T: Drop> From<AllocFailed<T>> for VaultError {
    ghost from_gives = { λ _ error. error ≡ NoMemory };

    fn from(_: AllocFailed<T>) -> Self {
        VaultError::NoMemory
    }
}
