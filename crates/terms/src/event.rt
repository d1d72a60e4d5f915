ghost use Rattle.std.specs.Prelude.{◌≡◌, IfOk, OnErr};
ghost use Rattle.terms.specs.Facts.{IsDone};

use crate::{Addr, FaultKind, Inst, Puts, Tag};
use std::alloc::{AllocError, Global};

/// A put of the environment, or the end of an instance. An event is committed as a whole.
#[derive(PartialEq, Eq, Drop)]
pub enum Event {
    /// The environment put an item.
    EnvItem(Addr, i64),
    /// The environment put a tag.
    EnvTag(Tag),
    /// The instance is done, and these are its puts.
    Done(Inst, Puts),
    /// The instance is at fault, and put nothing.
    Stopped(Inst, FaultKind),
}

impl Event {
    /// Clones the event. No other call of this crate allocates, and this one allocates only for the puts of `Done`.
    pub fn try_clone(&self, alloc: Global) -> Result<Event, AllocError>
        ensures ok { IfOk result (λ event. event ≡ self.now) }
        ensures refused { OnErr result (IsDone self.now) }
    {
        Ok(match self {
            Event::EnvItem(address, value) => Event::EnvItem(*address, *value),
            Event::EnvTag(tag) => Event::EnvTag(*tag),
            Event::Done(instance, puts) => {
                Event::Done(*instance, Puts::new(puts.as_slice().to_vec(alloc)?))
            }
            Event::Stopped(instance, kind) => Event::Stopped(*instance, *kind),
        })
    }
}
