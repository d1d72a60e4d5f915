use crate::Key;

/// The number of an item collection of a graph, from 0.
#[derive(Clone, Copy, Debug, PartialEq, Eq, PartialOrd, Ord)]
pub struct ItemCollection(pub u16);

/// The number of a tag collection of a graph, from 0.
#[derive(Clone, Copy, Debug, PartialEq, Eq, PartialOrd, Ord)]
pub struct TagCollection(pub u16);

/// The number of a step collection of a graph, from 0.
#[derive(Clone, Copy, Debug, PartialEq, Eq, PartialOrd, Ord)]
pub struct StepCollection(pub u16);

/// The name of an item: its collection and its key.
#[derive(Clone, Copy, Debug, PartialEq, Eq, PartialOrd, Ord)]
pub struct Addr {
    pub collection: ItemCollection,
    pub key: Key,
}

/// The name of a tag: its collection and its key.
#[derive(Clone, Copy, Debug, PartialEq, Eq, PartialOrd, Ord)]
pub struct Tag {
    pub collection: TagCollection,
    pub key: Key,
}

/// The name of an instance of a step: the step's collection and the tag's key.
#[derive(Clone, Copy, Debug, PartialEq, Eq, PartialOrd, Ord)]
pub struct Inst {
    pub collection: StepCollection,
    pub key: Key,
}
