use terms::{FaultKind, Inst};
use thiserror::Error;

/// Why an event may not come, or an item may not be got. If several causes apply, the first in this order is reported.
#[derive(Clone, Copy, Debug, PartialEq, Eq, Error)]
pub enum Refusal {
    /// No collection of the graph has this number.
    #[error("no such collection")]
    NoSuchCollection,
    /// The number of components of the key is not that of its collection.
    #[error("the key has another number of components than those of its collection")]
    WrongArity,
    /// The graph does not let the environment make this put or get.
    #[error("the graph gives the environment no such put or get")]
    NotFromEnvironment,
    /// This fault of this instance has stopped the store.
    #[error("stopped by a fault")]
    Stopped(Inst, FaultKind),
    /// The item is there already, with this value.
    #[error("already put as {0}")]
    AlreadyPut(i64),
    /// The tag is there already.
    #[error("the tag is there already")]
    Repeat,
}
