ghost use Rattle.std.specs.Prelude.{◌≡◌};
ghost use Rattle.codec.specs.declared.error.CodecError.TheVariants.{NoMemory};

use std::alloc::{AllocError, AllocFailed};
use thiserror::Error;

/// Why bytes do not spell an event, a commit or an image: the first fault from the left.
#[derive(Clone, Copy, Debug, PartialEq, Eq, Error)]
pub enum CodecError {
    /// The bytes end too early.
    #[error("short")]
    Short,
    /// A kind, a mark, a producer or a kind of fault is outside its list.
    #[error("kind")]
    Kind,
    /// A count of components or of puts, or the number of a put, is too large; or the number of events of a group is not 2 to 64.
    #[error("range")]
    Range,
    /// An element does not come after the one before it.
    #[error("order")]
    Order,
    /// Bytes follow a whole value.
    #[error("trailing")]
    Trailing,
    /// Memory was refused.
    #[error("no memory")]
    NoMemory,
}

impl From<AllocError> for CodecError {
    ghost from_gives = { λ _ error. error ≡ NoMemory };

    fn from(_: AllocError) -> Self {
        CodecError::NoMemory
    }
}

impl<T: Drop> From<AllocFailed<T>> for CodecError {
    ghost from_gives = { λ _ error. error ≡ NoMemory };

    fn from(_: AllocFailed<T>) -> Self {
        CodecError::NoMemory
    }
}
