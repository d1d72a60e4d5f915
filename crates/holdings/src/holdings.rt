use crate::{Hints, Parts};
use graph::Graph;
use items::{Items, PutError};
use maps::{CollectionMap, InsertError, Walk};
use std::alloc::{AllocError, Global};
use std::marker::Model;
use steptree::limits;
use terms::{Addr, FaultKind, Inst, Producer, Tag};

/// What a store holds, by name. A put in the order of names costs one comparison, any other a binary search.
#[derive(Drop)]
pub struct Holdings {
    fault: Option<(Inst, FaultKind)>,
    items: Items,
    // The tags, each with whether the environment put it.
    tags: CollectionMap<bool>,
    // The instances that are done, by the numbers of their steps.
    done: CollectionMap<()>,
}

impl Model for Holdings {
    ghost use Rattle.std.specs.Prelude.{◌≡◌, length};
    ghost use Rattle.std.specs.FinMap.{empty};
    ghost use Rattle.std.specs.Coded.{codes};
    ghost use Rattle.std.specs.FinMap.{code as map_code};
    ghost use Rattle.terms.specs.contracts.fault.FaultKind as of_kind;
    ghost use Rattle.terms.specs.contracts.name.Inst as of_inst;
    ghost use Rattle.terms.specs.contracts.producer.Producer as of_producer;
    ghost use Rattle.holdings.specs.Holdings.{Holdings as Seen};

    ghost Value = { Seen };

    ghost coded = { Prim.hlevel (codes, map_code, of_kind.the_row.coded, of_inst.the_row.coded, of_producer.the_row.coded) };

    ghost view = { λ h. record { fault = h.fault; items = h.items.items.items; tags = h.tags.items; done = h.done.items; counts = record { items = length h.items.items.room; tags = length h.tags.room; steps = length h.done.room } } };

    ghost invariant = { λ h. h.items.waiting ≡ empty };
}

impl Holdings {
    ghost use Rattle.std.specs.Prelude.{◌≡◌, ◌-◌, ◌^◌, ◌<◌, ◌↔◌, false, IfOk, IsTrue, None, OnErr, Some, is_some, length, map, min};
    ghost use Rattle.std.specs.FinMap.{entries, get};
    ghost use Rattle.items.specs.Held.{address_at, place};
    ghost use Rattle.instances.specs.Known.{inst_place, tag_place};
    ghost use Rattle.holdings.specs.Holdings.{ArePartsOf, nothing_of, with_done, with_fault, with_item, with_tag};

    /// Holds nothing yet, for the collections of a graph.
    pub fn new(alloc: Global, graph: &Graph) -> Result<Self, AllocError>
        ensures { IfOk result (λ h. h ≡ nothing_of graph.now) }
    {
        limits();
        Ok(Holdings {
            fault: None,
            items: Items::new(alloc, graph.item_count())?,
            tags: CollectionMap::new(alloc, graph.tag_count())?,
            done: CollectionMap::new(alloc, graph.step_count())?,
        })
    }

    /// The instance at fault, if there is one.
    pub fn fault(&self) -> Option<(Inst, FaultKind)>
        ensures { result ≡ self.now.fault }
    {
        self.fault
    }

    /// The items, in the order of their addresses.
    pub fn items(&self) -> items::Walk<'_>
        ensures { result ≡ map (λ entry. (address_at entry.0, entry.1)) (entries self.now.items) }
    {
        self.items.walk()
    }

    /// The number of items, or the greatest `usize` if there are more.
    pub fn item_count(&self) -> usize
        ensures { result ≡ min (length (entries self.now.items)) (2 ^ 64 - 1) }
    {
        self.items.count()
    }

    /// The tags, in their order, each with whether the environment put it.
    pub fn tags(&self) -> Walk<'_, bool>
        ensures { result ≡ entries self.now.tags }
    {
        self.tags.walk()
    }

    /// The instances that are done, in their order.
    pub fn done(&self) -> Walk<'_, ()>
        ensures { result ≡ entries self.now.done }
    {
        self.done.walk()
    }

    /// Whether the tag is held.
    pub fn has_tag(&self, name: &Tag, hints: &mut Hints) -> bool
        ensures { result ≡ is_some (get self.now.tags (tag_place name.now)) }
    {
        let there = self
            .tags
            .get_near(name.collection.0, name.key, &mut hints.tags);
        there.is_some()
    }

    /// Whether the instance is done.
    pub fn is_done(&self, instance: &Inst, hints: &mut Hints) -> bool
        ensures { result ≡ is_some (get self.now.done (inst_place instance.now)) }
    {
        let there = self
            .done
            .get_near(instance.collection.0, instance.key, &mut hints.done);
        there.is_some()
    }

    /// Puts an item at its address, if none is there, and returns whether none was. An error changes nothing.
    pub fn put_item(
        &mut self,
        address: Addr,
        value: i64,
        producer: Producer,
    ) -> Result<bool, AllocError>
        requires { address.collection.0 < self.old.counts.items }
        ensures absent { IfOk result (λ new. IsTrue new ↔ (get self.old.items (place address) ≡ None)) }
        ensures put { IfOk result (λ new. IsTrue new → self.new ≡ with_item self.old address value producer) }
        ensures there { IfOk result (λ new. new ≡ false → self.new ≡ self.old) }
        ensures refused { OnErr result (self.new ≡ self.old) }
    {
        match self.items.put(address, value, producer) {
            Ok(()) => Ok(true),
            Err(PutError::AlreadyPut(_)) => Ok(false),
            Err(PutError::NoMemory) => Err(AllocError),
        }
    }

    /// Puts a tag with its mark, if it is not held, and returns whether it was not. An error changes nothing.
    pub fn put_tag(&mut self, name: Tag, by_environment: bool) -> Result<bool, AllocError>
        requires { name.collection.0 < self.old.counts.tags }
        ensures absent { IfOk result (λ new. IsTrue new ↔ (get self.old.tags (tag_place name) ≡ None)) }
        ensures put { IfOk result (λ new. IsTrue new → self.new ≡ with_tag self.old name by_environment) }
        ensures there { IfOk result (λ new. new ≡ false → self.new ≡ self.old) }
        ensures refused { OnErr result (self.new ≡ self.old) }
    {
        match self
            .tags
            .insert(name.collection.0, name.key, by_environment)
        {
            Ok(()) => Ok(true),
            Err(InsertError::Taken(_)) => Ok(false),
            Err(InsertError::NoMemory) => Err(AllocError),
        }
    }

    /// Ends an instance, if it is not done, and returns whether it was not. An error changes nothing.
    pub fn end(&mut self, instance: Inst) -> Result<bool, AllocError>
        requires { instance.collection.0 < self.old.counts.steps }
        ensures absent { IfOk result (λ new. IsTrue new ↔ (get self.old.done (inst_place instance) ≡ None)) }
        ensures ended { IfOk result (λ new. IsTrue new → self.new ≡ with_done self.old instance) }
        ensures there { IfOk result (λ new. new ≡ false → self.new ≡ self.old) }
        ensures refused { OnErr result (self.new ≡ self.old) }
    {
        match self.done.insert(instance.collection.0, instance.key, ()) {
            Ok(()) => Ok(true),
            Err(InsertError::Taken(_)) => Ok(false),
            Err(InsertError::NoMemory) => Err(AllocError),
        }
    }

    /// Puts a fault in the place of the one that there is, if there is one.
    pub fn stop(&mut self, fault: Option<(Inst, FaultKind)>)
        ensures { self.new ≡ with_fault self.old fault }
    {
        self.fault = fault;
    }

    /// The parts, whose maps are taken over.
    pub fn into_parts(self) -> Parts
        ensures { ArePartsOf self result }
    {
        let Holdings {
            fault,
            items,
            tags,
            done,
        } = self;
        Parts {
            fault,
            items,
            tags,
            done,
        }
    }
}
