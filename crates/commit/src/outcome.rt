use steplang::{Bad, Given};
use terms::FaultKind;

/// What the body of an instance came to at its end.
#[derive(Drop)]
pub enum Outcome<'a> {
    /// It gave puts.
    Gave(Given<'a>),
    /// It is at fault.
    Fault(Bad<'a>),
}

/// What was committed of an instance.
#[derive(Clone, Copy, Debug, PartialEq, Eq)]
pub enum Committed {
    /// It is done, and its puts are there.
    Done,
    /// It is at fault, which stops the store.
    Stopped(FaultKind),
}
