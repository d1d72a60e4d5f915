//! The items of a store: a finite map from addresses to values, each with who put it. The map only grows.
//!
//! Clauses see `Items` as `Held`: the items by address, the instances that wait at each address, and for each
//! collection how many more items there is room for.
//!
//! The crate above relies on `put`: an item that was put stays there with its value, a second put at its address is
//! refused with that value, and an error changes nothing.
#![tactic(auto)]

mod error;
mod items;
mod marked_items;
mod walk;

pub use error::PutError;
pub use items::Items;
pub use marked_items::MarkedItems;
pub use walk::Walk;
