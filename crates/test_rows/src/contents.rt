//! What a store holds, as lists.
use machine::Machine;
use std::alloc::{AllocError, Global};
use terms::{Addr, FaultKind, Inst, Producer, Tag};

/// What a store holds: each list in rising order, as an image has it, or in any order.
pub(crate) struct Contents {
    pub(crate) fault: Option<(Inst, FaultKind)>,
    pub(crate) items: Vec<(Addr, i64, Producer)>,
    /// Each with a mark whether the environment put it.
    pub(crate) tags: Vec<(Tag, bool)>,
    pub(crate) done: Vec<Inst>,
}

impl Drop for Contents {
    // By hand, so that dropping them is one call, wherever they are dropped.
    fn drop(self) {
        let Contents {
            fault: _,
            items: _,
            tags: _,
            done: _,
        } = self;
    }
}

impl Contents {
    /// Nothing.
    pub(crate) fn new(alloc: Global) -> Self {
        Contents {
            fault: None,
            items: Vec::new(alloc),
            tags: Vec::new(alloc),
            done: Vec::new(alloc),
        }
    }

    /// Adds all that a store holds, in order.
    pub(crate) fn list(&mut self, store: &Machine) -> Result<(), AllocError> {
        self.fault = store.fault();
        for (address, (value, producer)) in store.items() {
            self.items.push((address, value, producer))?;
        }
        for tag in store.tags() {
            self.tags.push(tag)?;
        }
        for instance in store.done() {
            self.done.push(instance)?;
        }
        Ok(())
    }

    /// The item at an address.
    pub(crate) fn item(&self, address: &Addr) -> Option<&(Addr, i64, Producer)> {
        self.items.iter().find(|item| item.0 == *address)
    }

    /// Whether an item is there with this value and by this producer.
    pub(crate) fn has_item(&self, wanted: &(Addr, i64, Producer)) -> bool {
        self.items.iter().any(|item| item == wanted)
    }

    /// Whether a tag is there, whoever put it.
    pub(crate) fn has_tag(&self, wanted: &Tag) -> bool {
        self.tags.iter().any(|tag| tag.0 == *wanted)
    }

    /// Whether an instance is done.
    pub(crate) fn is_done(&self, wanted: &Inst) -> bool {
        self.done.iter().any(|instance| instance == wanted)
    }

    /// Adds an item in its place, unless one is at its address. Returns whether it was added.
    pub(crate) fn add_item(&mut self, item: (Addr, i64, Producer)) -> Result<bool, AllocError> {
        if self.item(&item.0).is_some() {
            return Ok(false);
        }
        let place = self.items.iter().filter(|other| other.0 < item.0).count();
        self.items.insert(place.min(self.items.len()), item)?;
        Ok(true)
    }

    /// Adds a tag in its place, unless it is there. Returns whether it was added.
    pub(crate) fn add_tag(&mut self, tag: (Tag, bool)) -> Result<bool, AllocError> {
        if self.has_tag(&tag.0) {
            return Ok(false);
        }
        let place = self.tags.iter().filter(|other| other.0 < tag.0).count();
        self.tags.insert(place.min(self.tags.len()), tag)?;
        Ok(true)
    }

    /// Adds a done instance in its place, unless it is done. Returns whether it was added.
    pub(crate) fn add_done(&mut self, instance: Inst) -> Result<bool, AllocError> {
        if self.is_done(&instance) {
            return Ok(false);
        }
        let place = self.done.iter().filter(|other| **other < instance).count();
        self.done.insert(place.min(self.done.len()), instance)?;
        Ok(true)
    }
}
