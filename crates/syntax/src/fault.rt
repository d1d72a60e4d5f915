ghost use Rattle.std.specs.Prelude.{◌≡◌};
ghost use Rattle.syntax.specs.declared.fault.TreeError.TheVariants.{NoMemory};

use std::alloc::AllocError;
use thiserror::Error;

/// Why a text is not a graph text.
#[derive(Clone, Copy, Debug, PartialEq, Eq, Error)]
pub enum TreeError {
    /// No graph text goes on with the token at `place`, or ends there if no token is left.
    #[error("syntax")]
    Syntax,
    /// A limit is passed at `place`.
    #[error("too large")]
    TooLarge,
    /// Memory was refused.
    #[error("no memory")]
    NoMemory,
}

/// A fault of a text, and its position: that of the token at fault, or the text's length if it ends too early; 0 if
/// memory was refused.
#[derive(Clone, Copy, Debug, PartialEq, Eq)]
pub struct TreeFault {
    pub error: TreeError,
    pub place: usize,
}

impl From<AllocError> for TreeFault {
    ghost from_gives = { λ _ fault. (fault.error ≡ NoMemory) × (fault.place ≡ 0) };

    fn from(_error: AllocError) -> TreeFault {
        TreeFault {
            error: TreeError::NoMemory,
            place: 0,
        }
    }
}
