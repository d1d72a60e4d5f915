ghost use Rattle.std.specs.Prelude.{[], get_or};
ghost use Rattle.graph.specs.Canonical.{variable_text};
ghost use Rattle.graph.specs.Pieces.{Writes, in_words};
ghost use Rattle.steptree.specs.Names.{names_in};

use super::pieces::put;
use crate::parts::Parts;
use std::alloc::AllocError;
use steptree::Slot;
use terms::{ItemCollection, TagCollection};

/// What the numbers in a body stand for: the collections of its graph, and the names of its step.
#[derive(Clone, Copy)]
pub(crate) struct Words<'a> {
    pub(crate) graph: &'a Parts<'a>,
    pub(crate) names: &'a [String],
}

impl Words<'_> {
    /// The name of a variable.
    pub(crate) fn put_variable(&self, text: &mut Vec<u8>, slot: Slot) -> Result<(), AllocError>
        ensures { Writes result text.old text.new (in_words self.now variable_text slot) }
    {
        let place = slot.place();
        if place < self.names.len() {
            put(text, &[self.names[place].as_str()])
        } else {
            Ok(())
        }
    }

    /// The name of an item collection.
    pub(crate) fn put_item_name(
        &self,
        text: &mut Vec<u8>,
        item: ItemCollection,
    ) -> Result<(), AllocError>
        ensures { Writes result text.old text.new (get_or (names_in self.now.graph.now.items) item.0 []) }
    {
        match self.graph.item_name(item) {
            Some(name) => put(text, &[name]),
            None => Ok(()),
        }
    }

    /// The name of a tag collection.
    pub(crate) fn put_tag_name(
        &self,
        text: &mut Vec<u8>,
        tag: TagCollection,
    ) -> Result<(), AllocError>
        ensures { Writes result text.old text.new (get_or (names_in self.now.graph.now.tags) tag.0 []) }
    {
        match self.graph.tag_name(tag) {
            Some(name) => put(text, &[name]),
            None => Ok(()),
        }
    }
}
