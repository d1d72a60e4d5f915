ghost use Rattle.std.specs.Prelude.{◌≡◌, IfOk};

use crate::{Components, Expression, Slot};
use std::alloc::{AllocError, Global};
use terms::{Addr, ItemCollection, Put, TagCollection};

/// A statement without blocks inside it.
///
/// A variable is a `V`, a collection of items an `I`, a collection of tags a `T`, and the components of a key are a `C`.
pub enum Simple<V = Slot, I = ItemCollection, T = TagCollection, C = Components> {
    /// Gives a variable the value of an expression.
    Assign {
        variable: V,
        value: Expression<V>,
    },
    /// Gives a variable the value of an item.
    Get {
        variable: V,
        collection: I,
        components: C,
    },
    /// Puts an item.
    PutItem {
        collection: I,
        components: C,
        value: Expression<V>,
    },
    /// Puts a tag.
    PutTag {
        collection: T,
        components: C,
    },
}

/// What a simple statement does once its expressions have values.
#[derive(Clone, Copy, Debug)]
pub enum Action {
    /// The variable gets the value.
    Assigns(Slot, i64),
    /// The variable gets the value of the item.
    Gets(Slot, Addr),
    /// The item or the tag is put.
    Puts(Put),
}

impl Simple {
    /// A copy.
    pub(crate) fn copied(&self, alloc: Global) -> Result<Self, AllocError>
        ensures { IfOk result (λ copy. copy ≡ self.now) }
    {
        Ok(match self {
            Simple::Assign { variable, value } => Simple::Assign {
                variable: *variable,
                value: value.copied(alloc)?,
            },
            Simple::Get {
                variable,
                collection,
                components,
            } => Simple::Get {
                variable: *variable,
                collection: *collection,
                components: components.copied(alloc)?,
            },
            Simple::PutItem {
                collection,
                components,
                value,
            } => Simple::PutItem {
                collection: *collection,
                components: components.copied(alloc)?,
                value: value.copied(alloc)?,
            },
            Simple::PutTag {
                collection,
                components,
            } => Simple::PutTag {
                collection: *collection,
                components: components.copied(alloc)?,
            },
        })
    }
}

impl<V: Drop, I: Drop, T: Drop, C: Drop> Drop for Simple<V, I, T, C> {
    // Written by hand, so that dropping a statement is one call everywhere.
    fn drop(self) {
        match self {
            Simple::Assign {
                variable: _,
                value: _,
            } => {}
            Simple::Get {
                variable: _,
                collection: _,
                components: _,
            } => {}
            Simple::PutItem {
                collection: _,
                components: _,
                value: _,
            } => {}
            Simple::PutTag {
                collection: _,
                components: _,
            } => {}
        }
    }
}
