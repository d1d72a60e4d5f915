ghost use Rattle.std.specs.Prelude.{◌≡◌, slice_get};
ghost use Rattle.std.specs.Option.{option_map};
ghost use Rattle.steptree.specs.Names.{names_in};

use crate::graph::Prescribed;
use crate::numbered::Numbered;
use std::marker::Model;
use terms::{ItemCollection, TagCollection};

/// The parts of a graph that its canonical text is written from. They exist before the graph is made and after.
#[derive(Drop)]
pub(crate) struct Parts<'a> {
    pub(crate) items: &'a Numbered<usize>,
    pub(crate) tags: &'a Numbered<usize>,
    pub(crate) steps: &'a Numbered<Prescribed>,
    pub(crate) environment_item_puts: &'a [bool],
    pub(crate) environment_tag_puts: &'a [bool],
    pub(crate) environment_gets: &'a [bool],
}

impl<'a> Model for Parts<'a> {
    ghost use Rattle.graph.specs.Graph.{Graph as Seen, IsGraph};
    ghost use Rattle.std.specs.Coded.{codes};
    ghost use Rattle.steptree.specs.contracts.body.Body as of_body;

    ghost Value = { Seen };

    ghost coded = { Prim.hlevel (codes, of_body.the_row.coded) };

    ghost use Rattle.graph.specs.Parts.{parts_seen};

    ghost view = { parts_seen };

    ghost invariant = { λ parts. IsGraph (parts_seen parts) };
}

impl Parts<'_> {
    /// The name of an item collection.
    pub(crate) fn item_name(&self, item: ItemCollection) -> Option<&str>
        ensures { option_map (λ name. name.now) result ≡ slice_get (names_in self.now.items) item.0 }
    {
        self.items.name(item.0 as usize)
    }

    /// The name of a tag collection.
    pub(crate) fn tag_name(&self, tag: TagCollection) -> Option<&str>
        ensures { option_map (λ name. name.now) result ≡ slice_get (names_in self.now.tags) tag.0 }
    {
        self.tags.name(tag.0 as usize)
    }
}
