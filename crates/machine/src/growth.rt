ghost use Rattle.std.specs.Prelude.{◌≡◌, IfOk};

use crate::Machine;
use crate::memory::Memory;
use crate::tally::Tally;
use std::alloc::AllocError;
use steptree::limits;
use terms::{Event, ItemCollection, Put, TagCollection};

impl Machine {
    ghost use Rattle.std.specs.Prelude.{OnErr, OnOk};
    ghost use Rattle.std.specs.List.{AllByRecursion};
    ghost use Rattle.graph.specs.Fits.{PutIsOf};
    ghost use Rattle.machine.specs.Group.{puts_of_all};
    ghost use Rattle.machine.specs.Machine.{HasRoom};
    ghost use Rattle.machine.specs.Room.{GivesRoom};

    /// Makes room for all that these puts add: each collection gets room for as many entries as there are puts that go to it. It
    /// is refused only if some collection did not have that much room before.
    ///
    /// It goes through the puts once and through the collections of the graph once. It allocates no memory except for the room.
    pub fn make_room(&mut self, puts: &[Put]) -> Result<(), AllocError>
        requires { AllByRecursion (PutIsOf self.old.graph) puts.now }
        ensures ok { OnOk result (HasRoom self.new puts.now) }
        ensures grows { GivesRoom self.old self.new }
        ensures refused { OnErr result (HasRoom self.old puts.now → ⊥) }
    {
        limits();
        self.tally.count(puts);
        self.memory.make_room(&self.tally)
    }

    /// The same for all the puts of these events together.
    pub fn make_room_for_ends(&mut self, ends: &[Event]) -> Result<(), AllocError>
        requires { AllByRecursion (PutIsOf self.old.graph) (puts_of_all ends.now) }
        ensures ok { OnOk result (HasRoom self.new (puts_of_all ends.now)) }
        ensures grows { GivesRoom self.old self.new }
        ensures refused { OnErr result (HasRoom self.old (puts_of_all ends.now) → ⊥) }
    {
        limits();
        self.tally.count_all(ends);
        self.memory.make_room(&self.tally)
    }
}

impl Memory {
    ghost use Rattle.std.specs.Prelude.{◌≡◌, ◌<◌, ◌≤◌, ◌^◌, OnErr, OnOk, get_or, length};
    ghost use Rattle.terms.specs.declared.name.ItemCollection.{ItemCollection as OfItems};
    ghost use Rattle.terms.specs.declared.name.TagCollection.{TagCollection as OfTags};
    ghost use Rattle.items.specs.Held.{IsOfCollection, room_for};
    ghost use Rattle.instances.specs.Known.{room_for as tags_for};
    ghost use Rattle.machine.specs.Room.{OnlyMakesRoom};
    ghost use Rattle.machine.specs.Tally.{HasRoomCounted};

    // Makes room for the puts that were counted.
    fn make_room(&mut self, tally: &Tally) -> Result<(), AllocError>
        requires items { length tally.now.items.items ≡ length self.old.items.items.room }
        requires tags { length tally.now.tags.items ≡ length self.old.instances.tags.room }
        requires few_items { length tally.now.items.items ≤ 2 ^ 16 }
        requires few_tags { length tally.now.tags.items ≤ 2 ^ 16 }
        ensures ok { OnOk result (HasRoomCounted self.new tally.now) }
        ensures grows { OnlyMakesRoom self.old self.new }
        ensures refused { OnErr result (HasRoomCounted self.old tally.now → ⊥) }
    {
        self.make_item_room(&tally.items)?;
        self.make_tag_room(&tally.tags)
    }

    // Makes room for these numbers of items, one for each collection.
    fn make_item_room(&mut self, counts: &[u128]) -> Result<(), AllocError>
        requires collections { length counts.now ≡ length self.old.items.items.room }
        requires few { length counts.now ≤ 2 ^ 16 }
        ensures ok { OnOk result ((collection : OfItems) → get_or counts.now collection.0 0 ≤ room_for self.new.items collection) }
        ensures grows { OnlyMakesRoom self.old self.new }
        ensures refused { OnErr result ((collection : OfItems) × (room_for self.old.items collection < get_or counts.now collection.0 0)) }
    {
        for number in 0..counts.len() {
            let count = counts[number];
            if count == 0 {
                continue;
            }
            self.make_room_for_items(ItemCollection(number as u16), count)?;
        }
        Ok(())
    }

    // Makes room for this number of items of one collection.
    fn make_room_for_items(
        &mut self,
        collection: ItemCollection,
        count: u128,
    ) -> Result<(), AllocError>
        requires { IsOfCollection self.old.items collection }
        ensures ok { OnOk result (count ≤ room_for self.new.items collection) }
        ensures grows { OnlyMakesRoom self.old self.new }
        ensures refused { OnErr result (room_for self.old.items collection < count) }
    {
        if count <= self.items.spare(collection) as u128 {
            return Ok(());
        }
        let count = in_memory(count)?;
        self.items.make_room(collection, count)
    }

    // Makes room for these numbers of tags, one for each collection, with all that they prescribe.
    fn make_tag_room(&mut self, counts: &[u128]) -> Result<(), AllocError>
        requires collections { length counts.now ≡ length self.old.instances.tags.room }
        requires few { length counts.now ≤ 2 ^ 16 }
        ensures ok { OnOk result ((collection : OfTags) → get_or counts.now collection.0 0 ≤ tags_for self.new.instances collection) }
        ensures grows { OnlyMakesRoom self.old self.new }
        ensures refused { OnErr result ((collection : OfTags) × (tags_for self.old.instances collection < get_or counts.now collection.0 0)) }
    {
        for number in 0..counts.len() {
            let count = counts[number];
            if count == 0 {
                continue;
            }
            self.make_room_for_tags(TagCollection(number as u16), count)?;
        }
        Ok(())
    }

    // Makes room for this number of tags of one collection, with all that they prescribe.
    fn make_room_for_tags(
        &mut self,
        collection: TagCollection,
        count: u128,
    ) -> Result<(), AllocError>
        requires { collection.0 < length self.old.instances.tags.room }
        ensures ok { OnOk result (count ≤ tags_for self.new.instances collection) }
        ensures grows { OnlyMakesRoom self.old self.new }
        ensures refused { OnErr result (tags_for self.old.instances collection < count) }
    {
        if count <= self.instances.spare(collection) as u128 {
            return Ok(());
        }
        let count = in_memory(count)?;
        self.instances.make_room(collection, count)
    }
}

// The count as a number of entries that memory can hold; no memory holds `2 ^ 64` of them.
fn in_memory(count: u128) -> Result<usize, AllocError>
    ensures ok { IfOk result (λ number. number ≡ count) }
{
    match usize::try_from(count) {
        Ok(number) => Ok(number),
        Err(_) => Err(AllocError),
    }
}
