//! What all trials of a file have in common.
use crate::calls::{Way, call};
use crate::streams::Limits;
use disk::MemDisk;
use std::alloc::{AllocError, Global};
use std::sync::Wait;
use std::thread::Threads;
use test_cases::Names;

/// The names of a file, and how each disk begins.
#[derive(Drop)]
pub(crate) struct Stage<'a, R> {
    pub(crate) rt: &'a R,
    pub(crate) alloc: Global,
    pub(crate) names: Names,
    /// The calls of the program with which each disk begins, a line each.
    pub(crate) beginning: String,
    /// What a report says after them.
    pub(crate) before: String,
}

impl<'a, R: Threads + Wait + Sync> Stage<'a, R> {
    /// No names yet, and an empty disk.
    pub(crate) fn new(rt: &'a R, alloc: Global) -> Self {
        Stage {
            rt,
            alloc,
            names: Names::new(alloc),
            beginning: String::new(alloc),
            before: String::new(alloc),
        }
    }

    /// Lets each disk begin with these calls of the program, and returns what a report says then.
    pub(crate) fn begin(&mut self, lines: &str) -> Result<String, AllocError> {
        self.beginning = String::from_str(self.alloc, lines)?;
        self.before = self.report()?;
        String::from_str(self.alloc, self.before.as_str())
    }

    // What a report says of a disk as each one begins.
    fn report(&self) -> Result<String, AllocError> {
        let disk = self.disk()?;
        let (_, came) = call(self, "cnc report .", Way::Whole, &Limits::none(), disk)?;
        Ok(came.into_told())
    }

    /// A disk as each one begins.
    pub(crate) fn disk(&self) -> Result<MemDisk, AllocError> {
        let mut disk = MemDisk::new(self.alloc);
        for line in self.beginning.lines() {
            let (next, _) = call(self, line, Way::Whole, &Limits::none(), disk)?;
            disk = next;
        }
        Ok(disk)
    }
}
