//! The names of Concurrent Collections: keys, addresses of items, tags and instances of steps, with their orders. And
//! what is committed under these names: events, with the puts of an instance or its fault.
//!
//! Clauses see a `Key` as the list of its components, and `Puts` as the list of an instance's puts. An address, a tag
//! or an instance is a collection's number and a key.
//!
//! The crates above rely on `cmp`. It is `key_cmp` for keys, and `addr_cmp`, `tag_cmp` and `inst_cmp` for addresses,
//! tags and instances, where the collection's number comes first; then there are `put_cmp` and `producer_cmp`. The
//! functions of `order` state the laws of these six orders. `equals_are_one` states that `==` is true exactly when the
//! two values are the same, and `is_same` of `specs/Same.antt`, which definitions use, when two addresses are. What events state is `facts` of `specs/Facts.antt`, and the functions of `facts` and
//! `puts_stated` state its laws.
#![tactic(auto)]

mod equal;
mod event;
mod facts;
mod fault;
mod key;
mod name;
mod order;
mod producer;
mod put;
mod puts_stated;

pub use equal::{equals_are_one, same_event};
pub use event::Event;
pub use facts::{environment_is_stated, examples_of_facts, facts_are_told_apart, facts_go_on};
pub use fault::FaultKind;
pub use key::{Key, MAX_COMPONENTS};
pub use name::{Addr, Inst, ItemCollection, StepCollection, Tag, TagCollection};
pub use order::{
    addr_order, inst_order, key_order, orders_are_total, producer_order, put_order, tag_order,
};
pub use producer::Producer;
pub use put::{MOST_PUTS, Put, Puts};
pub use puts_stated::puts_are_stated;
