use crate::Core;
use disk::Disk;
use machine::{Counts, ItemsOf};
use terms::ItemCollection;

impl<D: Disk> Core<D> {
    ghost use Rattle.machine.specs.Counts.{AreCountsOf, AreItemsOf};
    ghost use Rattle.commit.specs.Core.{facts, graph};

    /// The items of a collection, each with its value, in the order of their addresses; none if the graph has no such
    /// collection. It takes no memory.
    pub fn items_of(&self, collection: ItemCollection) -> ItemsOf<'_>
        ensures { AreItemsOf (facts self.now) collection result }
    {
        self.machine.items_of(collection)
    }

    /// The number of items, of tags, of instances that are prescribed, and of those of them that are done. It takes no
    /// memory.
    pub fn counts(&self) -> Counts
        ensures { AreCountsOf (graph self.now) (facts self.now) result }
    {
        self.machine.counts()
    }
}
