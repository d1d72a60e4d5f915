//! A disk of two files, as everything above sees it: the trait `Disk`, a disk in memory and one of real files.
//!
//! A file is what a read gives, the bytes of the last successful sync, and the positions touched since.
//! A crash may leave any bytes that agree with the synced ones at every position that is not touched.
//! The crates above rely on the clauses of the trait, and on its two laws.
#![tactic(auto)]

mod choice;
mod crash;
mod error;
mod file_disk;
pub mod laws;
mod mem_disk;
mod record;
mod refusals;
mod side;
mod storage;
mod synced;

pub use choice::Choice;
pub use error::DiskError;
pub use file_disk::FileDisk;
pub use mem_disk::{Fill, MemDisk};
pub use side::Side;
pub use storage::Disk;
pub use synced::write_synced;
