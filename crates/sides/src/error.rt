ghost use Rattle.std.specs.Prelude.{◌≡◌};
ghost use Rattle.sides.specs.declared.error.SideError.TheVariants.{NoMemory};

use std::alloc::AllocError;
use thiserror::Error;

/// Why the bytes of an open side were not read.
#[derive(Clone, Copy, Debug, PartialEq, Eq, Error)]
pub enum SideError {
    /// The part at this position is the first that is wrong.
    #[error("damaged at {0}")]
    Damaged(u64),
    /// Memory was refused.
    #[error("no memory")]
    NoMemory,
}

impl From<AllocError> for SideError {
    ghost from_gives = { λ _ error. error ≡ NoMemory };

    fn from(_: AllocError) -> Self {
        SideError::NoMemory
    }
}
