ghost use Rattle.std.specs.Prelude.{◌≡◌};
ghost use Rattle.std.specs.Ordering.{eq_by_cmp};
ghost use Rattle.terms.specs.Name.{inst_cmp};
ghost use Rattle.items.specs.Once.{is_one_of};

use crate::{MarkedItems, PutError, Walk};
use maps::{CollectionMap, Hint, InsertError, Steps};
use std::alloc::{AllocError, Global};
use std::collections::BTreeMap;
use std::marker::Model;
use terms::{Addr, Inst, ItemCollection, Producer, orders_are_total};

/// The items of a store, and the instances that wait for items. A `get` is a binary search, and so is a put, wherever its
/// key goes; a put with a key greater than all others of its collection takes one comparison.
#[derive(Drop)]
pub struct Items {
    items: CollectionMap<(i64, Producer)>,
    waiting: BTreeMap<Addr, Vec<Inst>>,
    alloc: Global,
}

impl Model for Items {
    ghost use Rattle.std.specs.Prelude.{map};
    ghost use Rattle.std.specs.FinMap.{from_entries};
    ghost use Rattle.items.specs.Codes.{held_code};
    ghost use Rattle.items.specs.Held.{Held, place};
    ghost use Rattle.items.specs.Once.{WaitOnce};

    ghost Value = { Held };

    ghost coded = { held_code };

    ghost view = { λ i. record { items = i.items; waiting = from_entries (map (λ entry. (place entry.0, entry.1.items)) i.waiting.entries) } };

    ghost invariant = { λ i. WaitOnce (record { items = i.items; waiting = from_entries (map (λ entry. (place entry.0, entry.1.items)) i.waiting.entries) }) };
}

impl Items {
    ghost use Rattle.std.specs.Prelude.{◌<◌, ◌≤◌, ◌-◌, ◌^◌, false, IfOk, IfErr, OnOk, OnErr, length, map, min};
    ghost use Rattle.std.specs.FinMap.{entries};
    ghost use Rattle.maps.specs.Keyed.{ComparesFew};
    ghost use Rattle.maps.specs.Marked.{AreUnmarked};
    ghost use Rattle.maps.specs.Numbered.{of_number, AddsAt, OnlyMakesRoom};
    ghost use Rattle.items.specs.Held.{
      item_at,
      waiters_at,
      room_for,
      place,
      address_at,
      IsOfCollection,
      IsRefused,
      no_items,
      with_waiter,
      without_waiters,
    };
    ghost use Rattle.items.specs.Once.{IsOnceEach};

    /// Holds no items yet, for this number of collections.
    pub fn new(alloc: Global, collections: usize) -> Result<Self, AllocError>
        requires { collections ≤ 2 ^ 16 }
        ensures { IfOk result (λ held. held ≡ no_items collections) }
    {
        Ok(Items {
            items: CollectionMap::new(alloc, collections)?,
            waiting: BTreeMap::new(alloc),
            alloc,
        })
    }

    /// The item at the address and who put it, if there is one.
    pub fn get(&self, addr: Addr) -> Option<(i64, Producer)>
        ensures { result ≡ item_at self.now addr }
    {
        self.items.get(addr.collection.0, addr.key)
    }

    /// The same as `get`. It looks first where the hint says, and sets the hint to where the address is or would be.
    pub fn get_near(&self, addr: Addr, hint: &mut Hint) -> Option<(i64, Producer)>
        ensures { result ≡ item_at self.now addr }
    {
        self.items.get_near(addr.collection.0, addr.key, hint)
    }

    /// The item at the address and who put it, if there is one. It compares keys by `Steps::compare` alone; if the collection
    /// has a number of items with `d` binary digits, it does so at most `d * (d + 1) / 2` times.
    pub fn find(&self, addr: Addr, steps: &mut Steps) -> Option<(i64, Producer)>
        ensures item { result ≡ item_at self.now addr }
        ensures cost { ComparesFew (length (of_number addr.collection.0 (entries self.now.items.items))) steps.old steps.new }
        ensures more { steps.old ≤ steps.new }
    {
        let key = addr.key;
        self.items.find(addr.collection.0, &key, steps)
    }

    /// All items, in the order of their addresses.
    pub fn walk(&self) -> Walk<'_>
        ensures { result ≡ map (λ entry. (address_at entry.0, entry.1)) (entries self.now.items.items) }
    {
        Walk {
            entries: self.items.walk(),
        }
    }

    /// The items of one collection, in the order of their addresses; none if there is no such collection.
    pub fn walk_of(&self, collection: ItemCollection) -> Walk<'_>
        ensures { result ≡ map (λ entry. (address_at entry.0, entry.1)) (of_number collection.0 (entries self.now.items.items)) }
    {
        Walk {
            entries: self.items.walk_of(collection.0),
        }
    }

    /// The same items, none of them marked.
    pub fn marks(&self, alloc: Global) -> Result<MarkedItems<'_>, AllocError>
        ensures { IfOk result (AreUnmarked self.now.items.items) }
    {
        match self.items.marks(alloc) {
            Ok(marks) => Ok(MarkedItems { marks }),
            Err(error) => Err(error),
        }
    }

    /// The number of items, or the greatest `usize` if there are more.
    pub fn count(&self) -> usize
        ensures { result ≡ min (length (entries self.now.items.items)) (2 ^ 64 - 1) }
    {
        self.items.count()
    }

    /// The number of further items of the collection that there is room for.
    pub fn spare(&self, collection: ItemCollection) -> usize
        ensures { result ≡ room_for self.now collection }
    {
        self.items.room(collection.0)
    }

    /// Makes room for `count` more items of the collection. It fails only if there was less room, and then changes
    /// nothing.
    pub fn make_room(&mut self, collection: ItemCollection, count: usize) -> Result<(), AllocError>
        requires { IsOfCollection self.old collection }
        ensures ok { OnOk result (count ≤ room_for self.new collection) }
        ensures grows { OnlyMakesRoom self.old.items self.new.items collection.0 }
        ensures waiting { self.new.waiting ≡ self.old.waiting }
        ensures enough { count ≤ room_for self.old collection → self.new ≡ self.old }
        ensures refused { OnErr result ((self.new ≡ self.old) × (room_for self.old collection < count)) }
    {
        self.items.make_room(collection.0, count)
    }

    /// Puts an item at an address that has none.
    ///
    /// `AlreadyPut` carries the value that is there. `NoMemory` comes only if there is no item and no room. Neither
    /// changes anything.
    pub fn put(&mut self, addr: Addr, value: i64, producer: Producer) -> Result<(), PutError>
        requires { IsOfCollection self.old addr.collection }
        ensures ok { OnOk result (AddsAt self.old.items self.new.items (place addr) (value, producer)) }
        ensures waiting { self.new.waiting ≡ self.old.waiting }
        ensures refused { IfErr result (IsRefused self.old addr) }
        ensures unchanged { OnErr result (self.new ≡ self.old) }
    {
        match self
            .items
            .insert(addr.collection.0, addr.key, (value, producer))
        {
            Ok(()) => Ok(()),
            Err(InsertError::Taken((there, _))) => Err(PutError::AlreadyPut(there)),
            Err(InsertError::NoMemory) => Err(PutError::NoMemory),
        }
    }

    /// Whether an instance waits at an address.
    pub fn is_waiting(&self, addr: Addr, inst: Inst) -> bool
        ensures { result ≡ is_one_of inst (waiters_at self.now addr) }
    {
        match self.waiting.get(&addr) {
            Some(waiters) => is_among(inst, waiters),
            None => false,
        }
    }

    /// Lets an instance that does not wait there wait at an address, after those that already wait there. An error changes nothing.
    pub fn wait_on(&mut self, addr: Addr, inst: Inst) -> Result<(), AllocError>
        requires { is_one_of inst (waiters_at self.old addr) ≡ false }
        ensures ok { OnOk result (self.new ≡ with_waiter self.old addr inst) }
        ensures refused { OnErr result (self.new ≡ self.old) }
    {
        orders_are_total();
        match self.waiting.get_mut(&addr) {
            Some(waiters) => {
                waiters.push(inst)?;
                Ok(())
            }
            None => {
                let mut waiters = Vec::new(self.alloc);
                waiters.push(inst)?;
                self.waiting.insert(addr, waiters)?;
                Ok(())
            }
        }
    }

    /// Takes the instances that wait at the address, in the order in which they came. After that none waits there.
    pub fn take_waiters(&mut self, addr: Addr) -> Vec<Inst>
        ensures waiters { result.items ≡ waiters_at self.old addr }
        ensures once { IsOnceEach result.items }
        ensures taken { self.new ≡ without_waiters self.old addr }
    {
        match self.waiting.remove(&addr) {
            Some(waiters) => waiters,
            None => Vec::new(self.alloc),
        }
    }
}

// Whether an instance is one of these.
fn is_among(inst: Inst, list: &[Inst]) -> bool
    ensures { result ≡ is_one_of inst list.now }
{
    list.iter().any(|other| is_same(inst, other))
}

// Whether these are one instance.
fn is_same(inst: Inst, other: &Inst) -> bool
    ensures { result ≡ eq_by_cmp inst_cmp inst other.now }
{
    inst.cmp(other).is_eq()
}
