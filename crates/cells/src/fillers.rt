use crate::Filler;
use std::alloc::{AllocError, Global};
use std::collections::BTreeMap;
use terms::{Addr, Event, Put};

/// The fillers of the watches on items that have not come, by address.
#[derive(Drop)]
pub struct Fillers {
    waiting: BTreeMap<Addr, Vec<Filler>>,
    alloc: Global,
}

impl Fillers {
    /// None yet.
    pub fn new(alloc: Global) -> Fillers {
        Fillers {
            waiting: BTreeMap::new(alloc),
            alloc,
        }
    }

    /// Keeps a filler until the item at this address comes. If memory is refused, it is dropped, and its watch is never filled.
    pub fn keep(&mut self, address: Addr, filler: Filler) -> Result<(), AllocError> {
        match self.waiting.get_mut(&address) {
            Some(fillers) => {
                fillers.push(filler)?;
                Ok(())
            }
            None => {
                let mut fillers = Vec::new(self.alloc);
                fillers.push(filler)?;
                self.waiting.insert(address, fillers)?;
                Ok(())
            }
        }
    }

    /// Fills the watches on the items that these events put. It takes no memory.
    pub fn fill_all(&mut self, events: &[Event]) {
        if self.waiting.is_empty() {
            return;
        }
        for event in events {
            match event {
                Event::EnvItem(address, value) => self.fill(*address, *value),
                Event::Done(_, puts) => self.fill_puts(puts.as_slice()),
                Event::EnvTag(_) | Event::Stopped(_, _) => {}
            }
        }
    }

    // Fills the watches on the items among these puts.
    fn fill_puts(&mut self, puts: &[Put]) {
        for put in puts {
            if let Put::Item(address, value) = put {
                self.fill(*address, *value);
            }
        }
    }

    // Fills the watches on the item at this address.
    fn fill(&mut self, address: Addr, value: i64) {
        if let Some(fillers) = self.waiting.remove(&address) {
            for filler in fillers {
                filler.fill(value);
            }
        }
    }
}
