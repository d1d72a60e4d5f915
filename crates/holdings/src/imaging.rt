ghost use Rattle.std.specs.Prelude.{◌≡◌};
ghost use Rattle.instances.specs.Known.{tag_at as tag_named};
ghost use Rattle.holdings.specs.Listing.{inst_at as inst_named};

use crate::{Holdings, images_of_maps};
use codec::{Image, Instances, Items, Tags};
use std::alloc::{AllocError, Global};
use terms::{Addr, Inst, Key, Producer, StepCollection, Tag, TagCollection};

impl Holdings {
    ghost use Rattle.std.specs.Prelude.{◌≡◌, IfOk};
    ghost use Rattle.codec.specs.Image.{IsListed};
    ghost use Rattle.holdings.specs.Holdings.{image_of, HavePutNumbers};

    /// The image that lists what is held.
    pub fn image(&self, alloc: Global) -> Result<Image, AllocError>
        ensures image { IfOk result (λ image. image ≡ image_of self.now) }
        ensures listed { HavePutNumbers self.now → IfOk result IsListed }
    {
        images_of_maps();
        Ok(Image {
            fault: self.fault(),
            items: Items::new(self.list_items(alloc)?),
            tags: Tags::new(self.list_tags(alloc)?),
            done: Instances::new(self.list_done(alloc)?),
        })
    }

    // The items, sorted by address.
    fn list_items(&self, alloc: Global) -> Result<Vec<(Addr, i64, Producer)>, AllocError>
        ensures { IfOk result (λ list. list.items ≡ (image_of self.now).items) }
    {
        self.items()
            .map(|(addr, (value, producer))| (addr, value, producer))
            .collect(alloc)
    }

    // The tags, sorted, each with whether the environment put it.
    fn list_tags(&self, alloc: Global) -> Result<Vec<(Tag, bool)>, AllocError>
        ensures { IfOk result (λ list. list.items ≡ (image_of self.now).tags) }
    {
        self.tags()
            .map(|((number, key), mark)| (tag_at(number, key), mark))
            .collect(alloc)
    }

    // The instances that are done, sorted.
    fn list_done(&self, alloc: Global) -> Result<Vec<Inst>, AllocError>
        ensures { IfOk result (λ list. list.items ≡ (image_of self.now).done) }
    {
        self.done()
            .map(|((number, key), ())| inst_at(number, key))
            .collect(alloc)
    }
}

// A tag by the number of its collection and its key.
fn tag_at(number: u16, key: Key) -> Tag
    ensures { result ≡ tag_named (number, key) }
{
    let collection = TagCollection(number);
    Tag { collection, key }
}

// An instance by the number of its step and its key.
fn inst_at(number: u16, key: Key) -> Inst
    ensures { result ≡ inst_named (number, key) }
{
    let collection = StepCollection(number);
    Inst { collection, key }
}
