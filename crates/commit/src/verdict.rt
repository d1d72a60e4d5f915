use terms::{FaultKind, Inst};
use thiserror::Error;

/// How a run ended: the first of these that holds after it, in the order `Halted`, `Stopped`, `Complete` or `Blocked`. If
/// something is left to do, any of `Limit`, `Asked` and each `RunError` that holds.
#[derive(Clone, Copy, Debug, PartialEq, Eq)]
pub enum Verdict {
    /// Nothing is left to do, and each prescribed instance is done.
    Complete,
    /// Nothing is left to do: this number of instances wait for items that are not there.
    Blocked(usize),
    /// The store is stopped by this fault of this instance.
    Stopped(Inst, FaultKind),
    /// As many ends of instances were committed as the limit allows, and something is left to do.
    Limit,
    /// The run was asked to stop.
    Asked,
    /// A call of the disk returned an error: the store must be opened again.
    Halted,
}

/// Why a run ended in a store that is neither halted, stopped nor quiet. What was committed stays.
#[derive(Clone, Copy, Debug, PartialEq, Eq, Error)]
pub enum RunError {
    /// A thread could not be started.
    #[error("no thread")]
    Spawn,
    /// Memory was refused.
    #[error("no memory")]
    NoMemory,
    /// The record of an end does not fit.
    #[error("full")]
    Full,
}
