ghost use Rattle.std.specs.Prelude.{◌≡◌, ◌≢◌, ◌⊎◌, ◌<◌, ◌-◌, ◌++◌, ◌∷◌, [], false, vec_len, vec_capacity, IfOk, IfErr, IsErrOf, Err};
ghost use Rattle.disk.specs.declared.error.DiskError.TheVariants.{Device, NoMemory};
ghost use Rattle.disk.specs.Time.{CountsRefusal};

use crate::refusals::one_more;
use crate::{DiskError, Side};
use std::alloc::Global;

/// What a call did to the durable state of its file.
#[derive(Drop)]
pub(crate) enum Change {
    Nothing,
    Write { at: u64, count: u64 },
    Cut { count: u64 },
    Sync { content: Vec<u8> },
}

/// One call of a disk.
#[derive(Drop)]
pub(crate) struct Call {
    pub(crate) side: Side,
    pub(crate) change: Change,
    pub(crate) failed: bool,
}

/// The calls of a disk so far, and which of the coming calls is to fail.
#[derive(Drop)]
pub(crate) struct Record {
    pub(crate) calls: Vec<Call>,
    // Counts down to 1, which is the call that is to fail; 0 if none is.
    pub(crate) until_failure: u64,
    // Changes with each call that returns `NoMemory`.
    pub(crate) refusals: u64,
}

impl Record {
    ghost use Rattle.disk.specs.Calls.{Kept, failed_call};

    /// No calls so far, and no call that is to fail.
    pub(crate) fn new(alloc: Global) -> Self
        ensures { result.calls.items ≡ [] }
    {
        Record {
            calls: Vec::new(alloc),
            until_failure: 0,
            refusals: 0,
        }
    }

    /// Makes the call with this number fail, counted from now on, from 1.
    pub(crate) fn fail(&mut self, number: u64)
        ensures calls { self.new.calls.items ≡ self.old.calls.items }
        ensures number { self.new.until_failure ≡ number }
    {
        self.until_failure = number;
    }

    /// Counts a call for which memory was refused, and returns `NoMemory`.
    pub(crate) fn refuse<T>(&mut self) -> Result<T, DiskError>
        ensures refused { result ≡ Err NoMemory }
        ensures counted { self.new.refusals ≢ self.old.refusals }
        ensures calls { self.new.calls.items ≡ self.old.calls.items }
    {
        self.refusals = one_more(self.refusals);
        Err(DiskError::NoMemory)
    }

    /// Begins a call: makes room for it, and records it as failed if it is the one that is to fail.
    pub(crate) fn begin(&mut self, side: Side, change: Change) -> Result<Change, DiskError>
        ensures fails { self.old.until_failure ≡ 1 → IfOk result (λ _. ⊥) }
        ensures device { IsErrOf result Device → self.old.until_failure ≡ 1 }
        ensures refused { CountsRefusal self.old.refusals self.new.refusals result }
        ensures counts { IsErrOf result NoMemory ⊎ (self.new.until_failure ≡ self.old.until_failure - 1) }
        ensures change { IfOk result (λ kept. kept ≡ change) }
        ensures room { IfOk result (λ _. vec_len self.new.calls < vec_capacity self.new.calls) }
        ensures ok { IfOk result (λ _. self.new.calls.items ≡ self.old.calls.items) }
        ensures err { IfErr result (λ error. Kept error (failed_call side change) self.old.calls.items self.new.calls.items) }
    {
        let Ok(()) = self.calls.reserve(1) else {
            return self.refuse();
        };
        let fails = self.until_failure == 1;
        self.until_failure = self.until_failure.saturating_sub(1);
        if fails {
            self.calls.push_reserved(Call {
                side,
                change,
                failed: true,
            });
            return Err(DiskError::Device);
        }
        Ok(change)
    }

    /// Ends a call that did what it was to do.
    pub(crate) fn end(&mut self, side: Side, change: Change)
        requires { vec_len self.old.calls < vec_capacity self.old.calls }
        ensures calls { self.new.calls.items ≡ self.old.calls.items ++ record { side = side; change = change; failed = false } ∷ [] }
        ensures refusals { self.new.refusals ≡ self.old.refusals }
    {
        self.calls.push_reserved(Call {
            side,
            change,
            failed: false,
        });
    }
}
