ghost use Rattle.std.specs.Prelude.{◌≡◌, [], IfOk, IfErr, OnOk};
ghost use Rattle.steptree.specs.CheckFaults.{faults_of, no_memory};
ghost use Rattle.steptree.specs.Limits.{IsWithinLimits};
ghost use Rattle.steptree.specs.Resolved.{Resolves};
ghost use Rattle.steptree.specs.Sheet.{BodyKeepsTo};
ghost use Rattle.steptree.specs.Statements.{IsFirst};

mod expressions;
mod names;
mod statements;

use crate::{Body, Checked, Sheet, Step};
use names::{all_names, owned_texts};
use statements::resolve_block;
use std::alloc::{AllocError, AllocFailed, Global};
use thiserror::Error;

/// What is wrong with a name in the body of a step.
#[derive(Clone, Copy, Debug, PartialEq, Eq, Error)]
pub enum CheckError {
    /// The step has no such variable, or no such collection is declared.
    #[error("unknown name")]
    UnknownName,
    /// The keys of the collection have another number of components.
    #[error("another number of components")]
    Arity,
    /// The step may not read the collection.
    #[error("undeclared read")]
    UndeclaredRead,
    /// The step may not put into the collection.
    #[error("undeclared put")]
    UndeclaredPut,
    /// Memory was refused.
    #[error("no memory")]
    NoMemory,
}

/// A fault of a step's body, and the position of the name that is at fault; 0 where memory was refused.
#[derive(Clone, Copy, Debug, PartialEq, Eq)]
pub struct CheckFault {
    pub error: CheckError,
    pub place: usize,
}

impl From<AllocError> for CheckFault {
    ghost from_gives = { λ _ fault. fault ≡ no_memory };

    fn from(_: AllocError) -> Self {
        CheckFault {
            error: CheckError::NoMemory,
            place: 0,
        }
    }
}

impl<T: Drop> From<AllocFailed<T>> for CheckFault {
    ghost from_gives = { λ _ fault. fault ≡ no_memory };

    fn from(_: AllocFailed<T>) -> Self {
        CheckFault {
            error: CheckError::NoMemory,
            place: 0,
        }
    }
}

/// Resolves the names of a step by what its sheet allows, or returns the first fault in the order of its text. If two
/// names are equal, the first counts.
///
/// If one name has several faults, an unknown name comes first, then a read or put that is not declared, then the number
/// of components.
pub fn check(alloc: Global, step: &Step<'_>, sheet: &Sheet<'_>) -> Result<Checked, CheckFault>
    requires { IsWithinLimits sheet.now step.now }
    ensures resolves { IfOk result (λ checked. Resolves sheet.now step.now checked) }
    ensures keeps { IfOk result (λ checked. BodyKeepsTo sheet.now checked.body) }
    ensures no_fault { OnOk result (faults_of sheet.now step.now ≡ []) }
    ensures first { IfErr result (IsFirst (faults_of sheet.now step.now)) }
{
    let names = all_names(alloc, step)?;
    let read = resolve_block(alloc, &names, sheet, &step.read)?;
    let write = resolve_block(alloc, &names, sheet, &step.write)?;
    let names = owned_texts(alloc, &names)?;
    let checked = Checked::new(alloc, names, step.parameters.len(), Body { read, write })?;
    Ok(checked)
}
