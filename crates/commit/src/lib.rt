//! The core of a store: its files and its state in memory, as one.
//!
//! Contracts see a `Core` as its vault, its machine, the events in doubt, those of the latest commit, and its allowance. It
//! takes only events that are legal, and a crash at any moment leaves the facts before the event or after it. The layers above use
//! `put_item`, `put_tag`, `put_all`, `finish` and `turn`, `claim`, `park` and `release`, and `status`, which says when nothing is
//! left to do: then the facts are the meaning of the graph.
#![tactic(auto)]

mod batch;
mod bodies;
mod choose;
mod commit_core;
mod commits;
mod counts;
mod creation;
mod dividing;
mod error;
mod events;
mod finish;
mod finish_all;
mod gets;
mod keeping;
mod opening;
mod outcome;
mod put_all;
mod puts;
mod runs;
mod said_items;
mod status;
mod steps;
mod tickets;
mod turning;
mod verdict;

pub use batch::{Batch, MOST_TOGETHER};
pub use bodies::{Came, run_body};
pub use choose::{Choose, First};
pub use commit_core::{Core, FIRST_ALLOWANCE};
pub use creation::{CreateError, NotCreated};
pub use error::CoreError;
pub use outcome::{Committed, Outcome};
pub use runs::run_with;
pub use status::Status;
pub use verdict::{RunError, Verdict};
