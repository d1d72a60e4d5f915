ghost use Rattle.std.specs.Prelude.{◌≡◌, ◌↔◌, ◌<◌, length, map, get_or, Some, IfSome, slice_get, true, false};
ghost use Rattle.std.specs.Option.{option_map};
ghost use Rattle.steptree.specs.Names.{place_of, names_in};
ghost use Rattle.graph.specs.Canonical.{canonical};
ghost use Rattle.graph.specs.Fits.{AddressIsOf, TagIsOf, InstanceIsOf};
ghost use Rattle.graph.specs.Graph.{IsGraph, body_at, names_at, parameters_at, EnvironmentMayPutItem, EnvironmentMayPutTag, EnvironmentMayGet};
ghost use Rattle.graph.specs.Prescribed.{prescribed_by, names_of_steps, mark_of};
ghost use Rattle.graph.specs.Reads.{Reads};
ghost use Rattle.graph.specs.Seen.{owned_texts};

use crate::numbered::Numbered;
use crate::parts::Parts;
use std::marker::Model;
use steptree::Checked;
use terms::{Addr, Inst, ItemCollection, Key, StepCollection, Tag, TagCollection};

/// A step: what prescribes it, what it may read and put by the numbers of the collections, and its body.
pub(crate) struct Prescribed {
    pub(crate) prescriber: TagCollection,
    pub(crate) reads: Vec<bool>,
    pub(crate) item_puts: Vec<bool>,
    pub(crate) tag_puts: Vec<bool>,
    pub(crate) checked: Checked,
}

impl Drop for Prescribed {
    // Written by hand, so that it is one call wherever a step is dropped.
    fn drop(self) {
        let Prescribed {
            prescriber: _,
            reads: _,
            item_puts: _,
            tag_puts: _,
            checked: _,
        } = self;
    }
}

/// A graph: its collections by their numbers, what each step may read and put, what the environment may put and get, and the
/// bodies of the steps. It is made by parsing a text, and its canonical text reads as the same graph.
///
/// The methods that read a graph allocate no memory.
pub struct Graph {
    pub(crate) items: Numbered<usize>,
    pub(crate) tags: Numbered<usize>,
    // for each tag collection, by its number, the steps that it prescribes
    pub(crate) prescribes: Vec<Vec<StepCollection>>,
    pub(crate) steps: Numbered<Prescribed>,
    pub(crate) environment_item_puts: Vec<bool>,
    pub(crate) environment_tag_puts: Vec<bool>,
    pub(crate) environment_gets: Vec<bool>,
}

impl Drop for Graph {
    // Written by hand, so that it is one call wherever a graph is dropped.
    fn drop(self) {
        let Graph {
            items: _,
            tags: _,
            prescribes: _,
            steps: _,
            environment_item_puts: _,
            environment_tag_puts: _,
            environment_gets: _,
        } = self;
    }
}

impl Model for Graph {
    ghost use Rattle.graph.specs.Graph.{Graph as Seen};
    ghost use Rattle.std.specs.Coded.{codes};
    ghost use Rattle.steptree.specs.contracts.body.Body as of_body;

    ghost Value = { Seen };

    ghost coded = { Prim.hlevel (codes, of_body.the_row.coded) };

    ghost use Rattle.graph.specs.Inside.{graph_seen, IsKept};

    ghost view = { graph_seen };

    ghost invariant = { IsKept };
}

impl Graph {
    /// Its parts.
    pub(crate) fn parts(&self) -> Parts<'_>
        ensures parts { result ≡ self.now }
        ensures reads { Reads (canonical self.now) self.now }
    {
        Parts {
            items: &self.items,
            tags: &self.tags,
            steps: &self.steps,
            environment_item_puts: &self.environment_item_puts,
            environment_tag_puts: &self.environment_tag_puts,
            environment_gets: &self.environment_gets,
        }
    }

    /// The number of item collections.
    pub fn item_count(&self) -> usize
        ensures count { result ≡ length self.now.items }
        ensures graph { IsGraph self.now }
    {
        self.items.len()
    }

    /// The number of tag collections.
    pub fn tag_count(&self) -> usize
        ensures count { result ≡ length self.now.tags }
        ensures graph { IsGraph self.now }
    {
        self.tags.len()
    }

    /// The number of step collections.
    pub fn step_count(&self) -> usize
        ensures count { result ≡ length self.now.steps }
        ensures graph { IsGraph self.now }
    {
        self.steps.len()
    }

    /// The number of components of the keys of an item collection, if the collection is in the graph.
    pub fn item_components(&self, item: ItemCollection) -> Option<usize>
        ensures { result ≡ option_map (λ collection. collection.components) (slice_get self.now.items item.0) }
    {
        self.items.value(item.0 as usize).copied()
    }

    /// The number of components of the keys of a tag collection, if the collection is in the graph.
    pub fn tag_components(&self, tag: TagCollection) -> Option<usize>
        ensures { result ≡ option_map (λ collection. collection.components) (slice_get self.now.tags tag.0) }
    {
        self.tags.value(tag.0 as usize).copied()
    }

    /// The number of parameters of a step, if the step is in the graph.
    pub fn step_parameters(&self, step: StepCollection) -> Option<usize>
        ensures { result ≡ option_map (λ step. step.parameters) (slice_get self.now.steps step.0) }
    {
        match self.steps.value(step.0 as usize) {
            Some(step) => Some(step.checked.parameters),
            None => None,
        }
    }

    /// The name of an item collection; no other item collection has this name.
    pub fn item_name(&self, item: ItemCollection) -> Option<&str>
        ensures name { option_map (λ name. name.now) result ≡ slice_get (names_in self.now.items) item.0 }
        ensures once { IfSome result (λ name. place_of (names_in self.now.items) name.now ≡ Some item.0) }
    {
        self.items.name(item.0 as usize)
    }

    /// The name of a tag collection; no other tag collection has this name.
    pub fn tag_name(&self, tag: TagCollection) -> Option<&str>
        ensures name { option_map (λ name. name.now) result ≡ slice_get (names_in self.now.tags) tag.0 }
        ensures once { IfSome result (λ name. place_of (names_in self.now.tags) name.now ≡ Some tag.0) }
    {
        self.tags.name(tag.0 as usize)
    }

    /// The name of a step; no other step has this name.
    pub fn step_name(&self, step: StepCollection) -> Option<&str>
        ensures name { option_map (λ name. name.now) result ≡ slice_get (names_of_steps self.now.steps) step.0 }
        ensures once { IfSome result (λ name. place_of (names_of_steps self.now.steps) name.now ≡ Some step.0) }
    {
        self.steps.name(step.0 as usize)
    }

    /// The number of the item collection with a name.
    pub fn item_number(&self, name: &str) -> Option<ItemCollection>
        ensures { option_map (λ item. item.0) result ≡ place_of (names_in self.now.items) name.now }
    {
        match self.items.number(name) {
            Some(number) => Some(ItemCollection(number as u16)),
            None => None,
        }
    }

    /// The number of the tag collection with a name.
    pub fn tag_number(&self, name: &str) -> Option<TagCollection>
        ensures { option_map (λ tag. tag.0) result ≡ place_of (names_in self.now.tags) name.now }
    {
        match self.tags.number(name) {
            Some(number) => Some(TagCollection(number as u16)),
            None => None,
        }
    }

    /// The number of the step with a name.
    pub fn step_number(&self, name: &str) -> Option<StepCollection>
        ensures { option_map (λ step. step.0) result ≡ place_of (names_of_steps self.now.steps) name.now }
    {
        match self.steps.number(name) {
            Some(number) => Some(StepCollection(number as u16)),
            None => None,
        }
    }

    /// The tag collection that prescribes a step.
    pub fn prescriber(&self, step: StepCollection) -> Option<TagCollection>
        ensures { option_map (λ tag. tag.0) result ≡ option_map (λ step. step.prescriber) (slice_get self.now.steps step.0) }
    {
        match self.steps.value(step.0 as usize) {
            Some(step) => Some(step.prescriber),
            None => None,
        }
    }

    /// The steps that a tag collection prescribes, in ascending order; none if the collection is not in the graph.
    pub fn prescribed_by(&self, tag: TagCollection) -> &[StepCollection]
        ensures { map (λ step. step.0) result.now ≡ prescribed_by self.now tag.0 }
    {
        let number = tag.0 as usize;
        if number < self.prescribes.len() {
            &self.prescribes[number]
        } else {
            &[]
        }
    }

    /// Whether a step may read an item collection; false if one of them is not in the graph.
    pub fn may_read(&self, step: StepCollection, item: ItemCollection) -> bool
        ensures { result ≡ mark_of (λ step. step.reads) self.now step.0 item.0 }
    {
        match self.steps.value(step.0 as usize) {
            Some(step) => is_marked(&step.reads, item.0),
            None => false,
        }
    }

    /// Whether a step may put items of a collection; false if one of them is not in the graph.
    pub fn may_put_item(&self, step: StepCollection, item: ItemCollection) -> bool
        ensures { result ≡ mark_of (λ step. step.item_puts) self.now step.0 item.0 }
    {
        match self.steps.value(step.0 as usize) {
            Some(step) => is_marked(&step.item_puts, item.0),
            None => false,
        }
    }

    /// Whether a step may put tags of a collection; false if one of them is not in the graph.
    pub fn may_put_tag(&self, step: StepCollection, tag: TagCollection) -> bool
        ensures { result ≡ mark_of (λ step. step.tag_puts) self.now step.0 tag.0 }
    {
        match self.steps.value(step.0 as usize) {
            Some(step) => is_marked(&step.tag_puts, tag.0),
            None => false,
        }
    }

    /// Whether the environment may put items of a collection; false if it is not in the graph.
    pub fn environment_may_put_item(&self, item: ItemCollection) -> bool
        ensures { result ≡ get_or self.now.environment_item_puts item.0 false }
    {
        is_marked(&self.environment_item_puts, item.0)
    }

    /// Whether the environment may put tags of a collection; false if it is not in the graph.
    pub fn environment_may_put_tag(&self, tag: TagCollection) -> bool
        ensures { result ≡ get_or self.now.environment_tag_puts tag.0 false }
    {
        is_marked(&self.environment_tag_puts, tag.0)
    }

    /// Whether the environment may get items of a collection; false if it is not in the graph.
    pub fn environment_may_get(&self, item: ItemCollection) -> bool
        ensures { result ≡ get_or self.now.environment_gets item.0 false }
    {
        is_marked(&self.environment_gets, item.0)
    }

    /// Whether an address belongs to the graph: its collection does, and its key has the number of components declared there.
    pub fn is_address(&self, address: &Addr) -> bool
        ensures { (result ≡ true) ↔ AddressIsOf self.now address.now }
    {
        has_components(self.item_components(address.collection), &address.key)
    }

    /// Whether a tag belongs to the graph: its collection does, and its key has the number of components declared there.
    pub fn is_tag(&self, tag: &Tag) -> bool
        ensures { (result ≡ true) ↔ TagIsOf self.now tag.now }
    {
        has_components(self.tag_components(tag.collection), &tag.key)
    }

    /// Whether an instance belongs to the graph: its step does, and its key has as many components as the step has parameters.
    pub fn is_instance(&self, instance: &Inst) -> bool
        ensures { (result ≡ true) ↔ InstanceIsOf self.now instance.now }
    {
        has_components(self.step_parameters(instance.collection), &instance.key)
    }

    /// Whether the environment may put an item: its address belongs to the graph, and the environment may put its collection.
    pub fn environment_puts_item(&self, address: &Addr) -> bool
        ensures { (result ≡ true) ↔ EnvironmentMayPutItem self.now address.now }
    {
        self.is_address(address) && self.environment_may_put_item(address.collection)
    }

    /// Whether the environment may put a tag: it belongs to the graph, and the environment may put its collection.
    pub fn environment_puts_tag(&self, tag: &Tag) -> bool
        ensures { (result ≡ true) ↔ EnvironmentMayPutTag self.now tag.now }
    {
        self.is_tag(tag) && self.environment_may_put_tag(tag.collection)
    }

    /// Whether the environment may get an item: its address belongs to the graph, and the environment may get its collection.
    pub fn environment_gets(&self, address: &Addr) -> bool
        ensures { (result ≡ true) ↔ EnvironmentMayGet self.now address.now }
    {
        self.is_address(address) && self.environment_may_get(address.collection)
    }

    /// The names and the body of a step, if it is in the graph.
    pub fn body(&self, step: StepCollection) -> Option<&Checked>
        ensures body { option_map (λ checked. checked.now.body) result ≡ body_at self.now step.0 }
        ensures names { option_map (λ checked. owned_texts checked.now.names.items) result ≡ names_at self.now step.0 }
        ensures parameters { option_map (λ checked. checked.now.parameters) result ≡ parameters_at self.now step.0 }
        ensures graph { IsGraph self.now }
    {
        match self.steps.value(step.0 as usize) {
            Some(step) => Some(&step.checked),
            None => None,
        }
    }
}

/// The mark at an index, or false past the end.
fn is_marked(marks: &[bool], number: u16) -> bool
    ensures { result ≡ get_or marks.now number false }
{
    let number = number as usize;
    number < marks.len() && marks[number]
}

/// Whether the number of components is that of the key.
fn has_components(components: Option<usize>, key: &Key) -> bool
    ensures { (result ≡ true) ↔ (components ≡ Some (length key.now)) }
{
    components == Some(key.components().len())
}
