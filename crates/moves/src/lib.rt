//! Every list of moves of a store: calls of its core, crashes at any moment of them and between them, and openings.
//!
//! A move leads from one place to the next: from a core that is open on the store to another, or to its disk, or back. It may be
//! a single call, or a whole run or session (`runs_are_moves`). The moves
//! make a commit order (`History`), in which each acknowledged commit has its place. `for_every_schedule` is the theorem: after
//! every list of moves the core has the state after that order, the disk that or a prefix of what is in doubt beside it, and
//! both are within the meaning of the graph; and where nothing is left to do, they are the meaning.
#![tactic(auto)]

mod acknowledged;
mod every;
mod runs;

pub use acknowledged::acknowledged_stays;
pub use every::for_every_schedule;
pub use runs::runs_are_moves;
