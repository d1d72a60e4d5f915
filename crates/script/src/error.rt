ghost use Rattle.std.specs.Prelude.{◌≡◌};
ghost use Rattle.script.specs.declared.error.ScriptError.TheVariants.{NoMemory};

use std::alloc::{AllocError, AllocFailed};
use thiserror::Error;

/// What is wrong with a line of a script, in the order in which faults are reported: if a line has several of the first
/// four, the first of them is reported. `TooLarge` is reported before any of them.
#[derive(Clone, Copy, Debug, PartialEq, Eq)]
pub enum ScriptFault {
    /// The line has none of the forms.
    Syntax,
    /// A number does not fit in a signed 64-bit integer.
    Number,
    /// No collection of the graph has this name.
    UnknownName,
    /// The number of components of the key is not that of its collection.
    Arity,
    /// The script has more than 1,048,576 bytes. It is reported with line 1, whatever the lines are, even if one has a fault.
    TooLarge,
}

impl ScriptFault {
    ghost use Rattle.std.specs.Prelude.{◌≡◌};
    ghost use Rattle.script.specs.Numbers.{fault_number};

    /// Its number in messages, from 1 to 5.
    pub fn number(self) -> u8
        ensures { result ≡ fault_number self }
    {
        match self {
            ScriptFault::Syntax => 1,
            ScriptFault::Number => 2,
            ScriptFault::UnknownName => 3,
            ScriptFault::Arity => 4,
            ScriptFault::TooLarge => 5,
        }
    }
}

/// Why a text is not a script of a graph.
#[derive(Clone, Copy, Debug, PartialEq, Eq, Error)]
pub enum ScriptError {
    /// The line with this number is the first with a fault, and this is its fault. Lines count from 1, and lines without a
    /// token count too. With `TooLarge` the number is 1, and no line was read.
    #[error("line {0} of the script is at fault")]
    At(usize, ScriptFault),
    /// Memory was refused.
    #[error("no memory")]
    NoMemory,
}

impl From<AllocError> for ScriptError {
    ghost from_gives = { λ _ error. error ≡ NoMemory };

    fn from(_error: AllocError) -> ScriptError {
        ScriptError::NoMemory
    }
}

impl<T: Drop> From<AllocFailed<T>> for ScriptError {
    ghost from_gives = { λ _ error. error ≡ NoMemory };

    fn from(_error: AllocFailed<T>) -> ScriptError {
        ScriptError::NoMemory
    }
}
