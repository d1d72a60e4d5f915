use crate::{ItemsOf, Machine};
use terms::{ItemCollection, facts_are_told_apart, orders_are_total};

/// How much a store holds. A number that does not fit in a `usize` is given as `usize::MAX`.
#[derive(Clone, Copy, Debug, PartialEq, Eq)]
pub struct Counts {
    /// The number of items.
    pub items: usize,
    /// The number of tags.
    pub tags: usize,
    /// The number of instances that the tags prescribe.
    pub prescribed: usize,
    /// The number of those that are done.
    pub done: usize,
}

impl Machine {
    ghost use Rattle.machine.specs.Counts.{AreCountsOf, AreItemsOf};
    ghost use Rattle.machine.specs.Machine.{facts};

    /// The items of a collection, each with its value, sorted by address; none if the graph has no such collection.
    pub fn items_of(&self, collection: ItemCollection) -> ItemsOf<'_>
        ensures { AreItemsOf (facts self.now) collection result }
    {
        facts_are_told_apart();
        orders_are_total();
        ItemsOf {
            items: self.memory.items.walk_of(collection),
        }
    }

    /// The numbers of items, of tags, of prescribed instances and of those that are done.
    pub fn counts(&self) -> Counts
        ensures { AreCountsOf self.now.graph (facts self.now) result }
    {
        facts_are_told_apart();
        orders_are_total();
        self.memory.instances.are_there_together();
        Counts {
            items: self.memory.items.count(),
            tags: self.memory.instances.tag_count(),
            prescribed: self.memory.instances.count(),
            done: self.memory.instances.done_count(),
        }
    }
}
