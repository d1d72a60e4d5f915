//! Passes: what the holders of a history know of it, beside the lock.
//!
//! A thread has a `Pass`. A contract sees it as what its holder knows: which commits it has seen, and which were made with it. Who
//! holds the lock has the `Desk`, with the book: the history, and the number of passes. A pass is lent to the desk for a visit
//! (`Board::show`, `Board::record`), after which it has seen the whole history. Two words are read and written without the lock: the
//! number of events, and whether a stop was asked. Each step on them is a call of `Board`, by one rule (`IsRuled`), which the layer
//! above relies on: the history has of each pass just the commits that were made with it, and begins with what the pass has seen.
#![tactic(auto)]

mod blank;
mod board;
mod desk;
mod naming;
mod pass;
mod roll;
mod rule;
mod views;
mod visits;

pub use blank::Blank;
pub use board::Board;
pub use desk::Desk;
pub use naming::Naming;
pub use pass::{Kind, Pass};
pub use roll::{are_here, deal, gather};
pub use rule::Committing;
pub use views::View;
