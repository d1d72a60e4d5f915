ghost use Rattle.std.specs.Prelude.{◌≡◌, IfOk};
ghost use Rattle.machine.specs.Imaging.{items_in, tags_in};

use crate::elements::{Elements, Front};
use crate::spelling::ItemsLeft;
use crate::{ImageWalk, Machine};
use codec::{
    Image, Instances as DoneInstances, Items as ListedItems, MOST_BYTES, Tags, encode_fault,
};
use holdings::images_of_maps;
use instances::Instances;
use items::Items;
use std::alloc::{AllocError, Global};
use terms::{Addr, Producer, Tag, facts_are_told_apart};

impl Machine {
    ghost use Rattle.std.specs.Prelude.{IfOk};
    ghost use Rattle.codec.specs.Image.{IsListed, Lists};
    ghost use Rattle.machine.specs.Machine.{environment, facts};
    ghost use Rattle.machine.specs.Imaging.{SpellsAll};

    /// The image that lists what the store holds, sorted.
    pub fn image(&self, alloc: Global) -> Result<Image, AllocError>
        ensures lists { IfOk result (λ image. Lists image (environment self.now) (facts self.now)) }
        ensures listed { IfOk result IsListed }
    {
        facts_are_told_apart();
        images_of_maps();
        let items = listed_items(&self.memory.items, alloc)?;
        let tags = listed_tags(&self.memory.instances, alloc)?;
        let done = self.memory.instances.done(alloc)?;
        Ok(Image {
            fault: self.memory.fault,
            items: ListedItems::new(items),
            tags: Tags::new(tags),
            done: DoneInstances::new(done),
        })
    }

    /// The bytes of the image that lists what the store holds, sorted, piece by piece. It goes along all that is held once, to know how
    /// many bytes there are; it lists nothing, and keeps the bytes of one element of each list. Memory for these may be refused; so may an image
    /// with 2^32 items, tags or instances, which has no spelling.
    pub fn image_source(&self, alloc: Global) -> Result<ImageWalk<'_>, AllocError>
        ensures { IfOk result (λ walk. SpellsAll self.now walk) }
    {
        facts_are_told_apart();
        images_of_maps();
        let mut fault = Vec::with_capacity(alloc, MOST_BYTES)?;
        encode_fault(&mut fault, &self.memory.fault)?;
        let items = Front::new(&mut self.items_left(), fault)?;
        let first = Vec::with_capacity(alloc, MOST_BYTES)?;
        let tags = Front::new(&mut self.memory.instances.tags(), first)?;
        let first = Vec::with_capacity(alloc, MOST_BYTES)?;
        let done = Front::new(&mut self.memory.instances.done_walk(), first)?;
        Ok(ImageWalk::new(
            Elements::new(self.items_left(), items),
            Elements::new(self.memory.instances.tags(), tags),
            Elements::new(self.memory.instances.done_walk(), done),
        ))
    }

    // A walk along the items.
    fn items_left(&self) -> ItemsLeft<'_>
        ensures { result ≡ items_in self.now.memory.items }
    {
        facts_are_told_apart();
        images_of_maps();
        ItemsLeft {
            walk: self.memory.items.walk(),
        }
    }
}

// The items, sorted by address.
fn listed_items(items: &Items, alloc: Global) -> Result<Vec<(Addr, i64, Producer)>, AllocError>
    ensures { IfOk result (λ list. list.items ≡ items_in items.now) }
{
    items
        .walk()
        .map(|(addr, (value, producer))| (addr, value, producer))
        .collect(alloc)
}

// The tags, sorted, each with whether the environment put it.
fn listed_tags(instances: &Instances, alloc: Global) -> Result<Vec<(Tag, bool)>, AllocError>
    ensures { IfOk result (λ list. list.items ≡ tags_in instances.now) }
{
    instances.tags().collect(alloc)
}
