ghost use Rattle.std.specs.Prelude.{◌≡◌};
ghost use Rattle.std.specs.Prelude.{Some};
ghost use Rattle.graph.specs.FaultText.{error_number, check_number as number_of_check, fault_text};
ghost use Rattle.graph.specs.Placed.{no_memory, placed};

use std::alloc::{AllocError, AllocFailed};
use std::fmt;
use steptree::CheckError;
use syntax::{TreeError, TreeFault};
use thiserror::Error;

/// Why a text is not a graph. Each fault but `NoMemory` has a position.
#[derive(Clone, Copy, Debug, PartialEq, Eq, Error)]
pub enum GraphError {
    /// A byte of 128 or more.
    #[error("not ASCII")]
    NotAscii,
    /// No graph text continues like this, or the text ends too early.
    #[error("syntax")]
    Syntax,
    /// A name or a relation that appeared before.
    #[error("redeclared")]
    Redeclared,
    /// An item or a tag that is not declared.
    #[error("unknown name")]
    UnknownName,
    /// A step whose number of parameters is not the number of components of its tags.
    #[error("another number of components")]
    Arity,
    /// A step that nothing prescribes.
    #[error("no prescriber")]
    NoPrescriber,
    /// A step that is already prescribed.
    #[error("two prescribers")]
    TwoPrescribers,
    /// A relation with a step that has no text.
    #[error("step missing")]
    StepMissing,
    /// A second text of one step.
    #[error("step twice")]
    StepTwice,
    /// A limit is exceeded.
    #[error("too large")]
    TooLarge,
    /// A fault of a step's body.
    #[error("check")]
    Check(CheckError),
    /// Memory was refused.
    #[error("no memory")]
    NoMemory,
}

impl GraphError {
    /// Its number, from 1 to 12.
    pub fn number(self) -> u8
        ensures { result ≡ error_number self }
    {
        match self {
            GraphError::NotAscii => 1,
            GraphError::Syntax => 2,
            GraphError::Redeclared => 3,
            GraphError::UnknownName => 4,
            GraphError::Arity => 5,
            GraphError::NoPrescriber => 6,
            GraphError::TwoPrescribers => 7,
            GraphError::StepMissing => 8,
            GraphError::StepTwice => 9,
            GraphError::TooLarge => 10,
            GraphError::Check(_) => 11,
            GraphError::NoMemory => 12,
        }
    }
}

// The number of a fault of a body, from 1 to 5.
fn check_number(error: CheckError) -> u8
    ensures { result ≡ number_of_check error }
{
    match error {
        CheckError::UnknownName => 1,
        CheckError::Arity => 2,
        CheckError::UndeclaredRead => 3,
        CheckError::UndeclaredPut => 4,
        CheckError::NoMemory => 5,
    }
}

/// A fault of a text, with its line and column: both from 1, one column for each byte; 0 and 0 if memory was refused.
#[derive(Clone, Copy, Debug, PartialEq, Eq)]
pub struct GraphFault {
    pub error: GraphError,
    pub line: usize,
    pub column: usize,
}

impl fmt::Display for GraphFault {
    ghost output = { λ fault. Some (fault_text fault) };

    // Number, line and column, as in `2 at 1:3`; a fault of a body has its own number after a dot, as in `11.3 at 11:14`.
    fn fmt<W: fmt::Write>(&self, f: &mut fmt::Formatter<W>) -> fmt::Result {
        let line = self.line;
        let column = self.column;
        if let GraphError::Check(error) = self.error {
            let number = check_number(error);
            return write!(f, "11.{number} at {line}:{column}");
        }
        let number = self.error.number();
        write!(f, "{number} at {line}:{column}")
    }
}

/// A fault, and the position of the byte where it is; 0 if memory was refused.
#[derive(Clone, Copy, Debug)]
pub(crate) struct PlacedFault {
    pub(crate) error: GraphError,
    pub(crate) position: usize,
}

/// A text that is too large as a whole.
pub(crate) const TOO_LARGE: PlacedFault = PlacedFault {
    error: GraphError::TooLarge,
    position: 0,
};

impl From<AllocError> for PlacedFault {
    ghost from_gives = { λ _ fault. fault ≡ no_memory };

    fn from(_: AllocError) -> Self {
        PlacedFault {
            error: GraphError::NoMemory,
            position: 0,
        }
    }
}

impl<T: Drop> From<AllocFailed<T>> for PlacedFault {
    ghost from_gives = { λ _ fault. fault ≡ no_memory };

    fn from(_: AllocFailed<T>) -> Self {
        PlacedFault {
            error: GraphError::NoMemory,
            position: 0,
        }
    }
}

impl From<TreeFault> for PlacedFault {
    ghost from_gives = { λ fault new. new ≡ placed fault };

    fn from(fault: TreeFault) -> Self {
        PlacedFault {
            error: match fault.error {
                TreeError::Syntax => GraphError::Syntax,
                TreeError::TooLarge => GraphError::TooLarge,
                TreeError::NoMemory => GraphError::NoMemory,
            },
            position: fault.place,
        }
    }
}
