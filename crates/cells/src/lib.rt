//! Watches: a value that comes once, and that others look for.
//!
//! A `Watch` and its `Filler` are made as a pair. Contracts see a watch as what it has learned: the value, or nothing yet. Looking and
//! filling take no memory and never wait. A watch may outlive its filler. It never learns a second value; that the one it learns is the one that
//! was filled in is tested.
//! `Fillers` keeps the fillers of items that have not come, by address.
#![tactic(auto)]

mod crossing;
mod filler;
mod fillers;
mod watch;

pub use crossing::cells_cross;
pub use filler::Filler;
pub use fillers::Fillers;
pub use watch::Watch;
