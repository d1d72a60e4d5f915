use std::marker::Model;

/// The greatest number of collections of each kind.
pub const MOST_COLLECTIONS: usize = 64;

/// A declared collection: its name, and the number of components of its keys. Clauses see it as a `Collection`.
#[derive(Debug, Drop)]
pub struct Declared<'a> {
    pub name: &'a str,
    pub components: usize,
}

impl<'a> Model for Declared<'a> {
    ghost use Rattle.steptree.specs.Nameable.{Collection};

    ghost Value = { Collection };

    ghost view = { λ d. record { name = d.name.now; components = d.components } };
}

/// What a step may name: the collections of its graph by number, and by the same numbers whether the step may read them
/// and whether it may put into them. Clauses see it as a `Nameable`, whose parts are lists.
#[derive(Debug, Drop)]
pub struct Sheet<'a> {
    pub items: &'a [Declared<'a>],
    pub tags: &'a [Declared<'a>],
    pub reads: &'a [bool],
    pub item_puts: &'a [bool],
    pub tag_puts: &'a [bool],
}

impl<'a> Model for Sheet<'a> {
    ghost use Rattle.steptree.specs.Nameable.{Nameable};

    ghost Value = { Nameable };

    ghost view = { λ s. record { items = s.items.now; tags = s.tags.now; reads = s.reads.now; item_puts = s.item_puts.now; tag_puts = s.tag_puts.now } };
}
