use crate::Filler;
use once_cell::race::{Note, OnceBox};
use std::alloc::{AllocError, Global};
use std::marker::Model;
use std::sync::Arc;

/// What was learned of a value that comes once: the value, or nothing yet.
#[derive(Drop)]
pub struct Watch {
    cell: Arc<OnceBox<i64>>,
    // What the watch has learned. It takes no bytes.
    note: Note<i64>,
}

impl Model for Watch {
    ghost use Rattle.std.specs.Prelude.{◌≡◌, ℤ, Option};
    ghost use Rattle.once_cell.specs.Once.{cell_name};

    ghost Value = { Option ℤ };

    ghost view = { λ w. w.note.known };

    ghost invariant = { λ w. w.note.cell ≡ cell_name w.cell.value };
}

impl Watch {
    ghost use Rattle.std.specs.Prelude.{◌≡◌, None, Some, IfOk, MatchOption};
    ghost use Rattle.once_cell.specs.Once.{Agrees};

    /// A watch that has learned nothing, and what fills it.
    pub fn pair(alloc: Global) -> Result<(Watch, Filler), AllocError>
        ensures { IfOk result (λ both. both.0 ≡ None) }
    {
        let cell = Arc::new(alloc, OnceBox::new(alloc))?;
        let filled = Arc::clone(&cell)?;
        let filler = Filler::new(filled, alloc)?;
        let note = cell.note();
        Ok((Watch { cell, note }, filler))
    }

    /// The value, if it has come. Once a look has returned it, each later look returns the same.
    pub fn look(&mut self) -> Option<i64>
        ensures { MatchOption result ((self.old ≡ None) × (self.new ≡ None)) (λ value. (self.new ≡ Some value) × Agrees self.old value) }
    {
        match self.cell.get_as(&mut self.note) {
            Some(value) => Some(*value),
            None => None,
        }
    }
}
