//! The worker pool: 1 to 64 threads run the steps of a store to the one answer. A `Driver` runs them: a `Crew` of such
//! workers, or the calling thread alone.
//!
//! `drive` opens a hub round the core, with a pass for each worker, and closes it when they have ended. A worker claims
//! an instance, asks its probe, runs the body outside the lock, and commits the end, or lets the instance wait. Where bodies take long it claims by tickets, which
//! stand in a deque of its own, and from which workers that have nothing to do steal; else it claims several instances at once. What is
//! committed is a sequence of legal ends, whichever worker made them and in whatever order. The layer above needs no
//! more (`RunsWithin` of `commit`).
#![tactic(auto)]

mod committing;
mod crew;
mod driver;
mod driving;
mod hand;
mod pace;
mod probe;
mod resuming;
mod running;
mod settling;
mod shelf;
mod team;
mod waiting;
mod worker;

pub use crew::Crew;
pub use driver::Driver;
pub use driving::drive;
pub use probe::{AlwaysGo, Answer, Probe};
