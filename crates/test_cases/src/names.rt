//! The names of a file of cases.
use std::alloc::{AllocError, Global};
use std::collections::BTreeMap;

/// The bytes and texts that a file has named.
#[derive(Drop)]
pub struct Names {
    alloc: Global,
    bytes: BTreeMap<String, Vec<u8>>,
}

impl Names {
    /// No names yet.
    pub fn new(alloc: Global) -> Self {
        Names {
            alloc,
            bytes: BTreeMap::new(alloc),
        }
    }

    /// Gives these bytes the name, in place of what had it.
    pub fn give(&mut self, name: &str, bytes: Vec<u8>) -> Result<(), AllocError> {
        let name = String::from_str(self.alloc, name)?;
        self.bytes.insert(name, bytes)?;
        Ok(())
    }

    /// What has the name, if something does.
    pub fn bytes(&self, name: &str) -> Option<&[u8]> {
        match self.bytes.get(name) {
            Some(bytes) => Some(bytes.as_slice()),
            None => None,
        }
    }
}
