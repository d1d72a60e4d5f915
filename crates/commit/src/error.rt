ghost use Rattle.std.specs.Prelude.{◌≡◌};
ghost use Rattle.commit.specs.declared.error.CoreError.TheVariants.{Refused, Store};
ghost use Rattle.vault.specs.declared.error.VaultError.TheVariants.{NoMemory};

use machine::Refusal;
use std::alloc::AllocError;
use thiserror::Error;
use vault::VaultError;

/// Why a call of a core was refused. If several causes apply the first of them is returned: `Store(Halted)` before all
/// others, then those of `Refusal` in their order, then `Store(Full)`. `Store(NoMemory)` may come in place of
/// `Store(Full)`, or of success.
#[derive(Clone, Copy, Debug, PartialEq, Eq, Error)]
pub enum CoreError {
    /// The event may not come, or the item may not be read. No fact has changed.
    #[error("{0}")]
    Refused(Refusal),
    /// The store did not take it: `Full`, `Halted`, `Device` or `NoMemory`. If a call of the disk returned an error, as
    /// it did at each `Device`, the core is halted: the event may be on the disk or not, and the store must be opened
    /// again. Otherwise no fact has changed. Either way the instance of a task is ready again.
    #[error("{0}")]
    Store(VaultError),
}

impl From<Refusal> for CoreError {
    ghost from_gives = { λ refusal error. error ≡ Refused refusal };

    fn from(refusal: Refusal) -> Self {
        CoreError::Refused(refusal)
    }
}

impl From<VaultError> for CoreError {
    ghost from_gives = { λ cause error. error ≡ Store cause };

    fn from(cause: VaultError) -> Self {
        CoreError::Store(cause)
    }
}

impl From<AllocError> for CoreError {
    ghost from_gives = { λ _ error. error ≡ Store NoMemory };

    fn from(_: AllocError) -> Self {
        CoreError::Store(VaultError::NoMemory)
    }
}
