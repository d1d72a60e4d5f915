//! Hints: what is wrong at the place of a fault, or with a store that is refused, for a person who does not know the numbers and messages.
use graph::GraphError;
use script::ScriptFault;
use steptree::CheckError;
use vault::VaultError;

/// The hint where a limit of a graph is passed.
pub const LIMIT_PASSED: &str = "a limit is passed";

/// What is wrong at a place of a graph.
pub(crate) fn graph_hint(error: GraphError) -> &'static str {
    match error {
        GraphError::NotAscii => "this byte is not ASCII",
        GraphError::Syntax => "no graph goes on so",
        GraphError::Redeclared => "this stands in the text before",
        GraphError::UnknownName => "this is not declared",
        GraphError::Arity => "its tag has another number of components",
        GraphError::NoPrescriber => "no tag starts this step",
        GraphError::TwoPrescribers => "a tag starts this step already",
        GraphError::StepMissing => "this step has no text",
        GraphError::StepTwice => "this step has a text already",
        GraphError::TooLarge => LIMIT_PASSED,
        GraphError::Check(error) => body_hint(error),
        GraphError::NoMemory => "memory was refused",
    }
}

// What is wrong at a place of a step's body.
fn body_hint(error: CheckError) -> &'static str {
    match error {
        CheckError::UnknownName => "this is not declared",
        CheckError::Arity => "this has another number of components",
        CheckError::UndeclaredRead => "no relation lets the step get this",
        CheckError::UndeclaredPut => "no relation lets the step put this",
        CheckError::NoMemory => "memory was refused",
    }
}

/// What is wrong with a line of a script.
pub(crate) fn script_hint(fault: ScriptFault) -> &'static str {
    match fault {
        ScriptFault::Syntax => "this is no put, tag, get or run",
        ScriptFault::Number => "a number has more than 64 bits",
        ScriptFault::UnknownName => "no collection of this kind has the name",
        ScriptFault::Arity => "the key has another number of components",
        ScriptFault::TooLarge => "the script is too large",
    }
}

/// A sentence that explains why a store was refused; none if the cause is the system's, or the message says all.
pub(crate) fn store_hint(error: &VaultError) -> Option<&'static str> {
    match error {
        VaultError::NotAStore => Some(
            "Neither file holds a whole store: none was made, `create` was cut off, or a file was changed.",
        ),
        VaultError::Exists => Some(
            "A file `A` or `B` is there and not empty. Use another directory, or the store that is there, if one was made.",
        ),
        VaultError::Damaged(..) => {
            Some("The part of the file that begins at this byte is not one of a store.")
        }
        VaultError::Full => Some("What the store holds does not fit in 1 GiB."),
        VaultError::Halted | VaultError::Device | VaultError::NoMemory => None,
    }
}
