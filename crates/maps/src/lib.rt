//! Maps that keep their keys in order, and for which room can be made before they grow.
//!
//! A `KeyMap` maps the keys of one collection. A `CollectionMap` maps the keys of several, each by the collection's
//! number. Clauses see them as finite maps, together with the number of further entries that there is room for. Inside,
//! `Pages` hold the entries of a collection, in order, in pages of at most 64. An entry is a `Mark` there, whose words stand with those of all
//! entries of the collection. A value that a map keeps says by `Stored` which words it has.
//!
//! A `MarkedMap` is a map that is lent, with a mark at some of its entries; `MarkedCollections` are several.
//!
//! The crates above rely on `insert`: if there is room it never returns `NoMemory`, and an error changes nothing.
#![tactic(auto)]

mod collection_map;
mod error;
mod hint;
mod key_map;
mod key_walk;
mod mark;
mod marked_collections;
mod marked_map;
mod page;
mod page_places;
mod page_words;
mod pages;
mod steps;
mod stored;
mod walk;

pub use collection_map::CollectionMap;
pub use error::InsertError;
pub use hint::Hint;
pub use key_map::KeyMap;
pub use key_walk::KeyWalk;
pub use marked_collections::MarkedCollections;
pub use marked_map::MarkedMap;
pub use steps::Steps;
pub use stored::{Brief, Plain, Stored};
pub use walk::Walk;
