use thiserror::Error;

/// Why an item was not put. Nothing has changed.
#[derive(Clone, Copy, Debug, PartialEq, Eq, Error)]
pub enum PutError {
    /// The address already has an item, with this value.
    #[error("already put as {0}")]
    AlreadyPut(i64),
    /// Memory was refused.
    #[error("no memory")]
    NoMemory,
}
