ghost use Rattle.std.specs.Prelude.{◌≡◌};
ghost use Rattle.maps.specs.declared.error.InsertError.TheVariants.{NoMemory};

use std::alloc::{AllocError, AllocFailed};

/// Why an entry was not added. Nothing has changed.
#[derive(Clone, Copy, Debug, PartialEq, Eq)]
pub enum InsertError<V> {
    /// There is already an entry with the key, with this value.
    Taken(V),
    /// Memory was refused.
    NoMemory,
}

impl<V> From<AllocError> for InsertError<V> {
    ghost from_gives = { λ _ error. error ≡ NoMemory };

    fn from(_: AllocError) -> Self {
        InsertError::NoMemory
    }
}

impl<V, T: Drop> From<AllocFailed<T>> for InsertError<V> {
    ghost from_gives = { λ _ error. error ≡ NoMemory };

    fn from(_: AllocFailed<T>) -> Self {
        InsertError::NoMemory
    }
}
