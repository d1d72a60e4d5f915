use graph::Graph;
use std::alloc::{AllocError, Global};
use std::collections::BTreeMap;
use std::marker::Model;
use terms::{Addr, Inst, Put, Tag};

/// The instances that are to be tried next, and those that wait for items. Contracts see how many are to be tried. Which ones wait, and for what, is in no contract: it
/// decides only in which order instances are tried.
#[derive(Drop)]
pub(crate) struct Waiting {
    alloc: Global,
    to_try: Vec<Inst>,
    waiters: BTreeMap<Addr, Vec<Inst>>,
}

impl Model for Waiting {
    ghost use Rattle.std.specs.Prelude.{ℕ, length};

    ghost Value = { ℕ };

    ghost view = { λ w. length w.to_try.items };
}

impl Waiting {
    ghost use Rattle.std.specs.Prelude.{◌≡◌, ◌<◌, IsSome, OnOk};

    /// None waits, and none is to be tried.
    pub(crate) fn new(alloc: Global) -> Self {
        Waiting {
            alloc,
            to_try: Vec::new(alloc),
            waiters: BTreeMap::new(alloc),
        }
    }

    /// One more instance is to be tried.
    pub(crate) fn push(&mut self, inst: Inst) -> Result<(), AllocError> {
        self.to_try.push(inst)?;
        Ok(())
    }

    /// Takes an instance that is to be tried.
    pub(crate) fn pop(&mut self) -> Option<Inst>
        ensures { IsSome result → self.new < self.old }
    {
        self.to_try.pop()
    }

    /// Lets an instance wait for the item at an address.
    pub(crate) fn park(&mut self, inst: Inst, addr: Addr) -> Result<(), AllocError>
        ensures { OnOk result (self.new ≡ self.old) }
    {
        match self.waiters.get_mut(&addr) {
            Some(there) => {
                there.push(inst)?;
                Ok(())
            }
            None => {
                let mut first = Vec::with_capacity(self.alloc, 1)?;
                first.push(inst)?;
                self.waiters.insert(addr, first)?;
                Ok(())
            }
        }
    }

    /// After these puts, those that wait for their items are to be tried, and those that their tags prescribe.
    pub(crate) fn wake(&mut self, graph: &Graph, puts: &[Put]) -> Result<(), AllocError> {
        for put in puts {
            match put {
                Put::Item(addr, _) => self.wake_at(addr)?,
                Put::Tag(tag) => self.wake_by(graph, tag)?,
            }
        }
        Ok(())
    }

    // Those that wait for an item are to be tried.
    fn wake_at(&mut self, addr: &Addr) -> Result<(), AllocError> {
        if let Some(woken) = self.waiters.remove(addr) {
            for inst in &woken {
                self.to_try.push(*inst)?;
            }
        }
        Ok(())
    }

    // Those that a tag prescribes are to be tried.
    fn wake_by(&mut self, graph: &Graph, tag: &Tag) -> Result<(), AllocError> {
        for step in graph.prescribed_by(tag.collection) {
            self.to_try.push(Inst {
                collection: *step,
                key: tag.key,
            })?;
        }
        Ok(())
    }
}
