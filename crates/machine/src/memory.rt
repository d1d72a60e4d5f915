ghost use Rattle.std.specs.Prelude.{◌≡◌};
ghost use Rattle.machine.specs.Memory.{LetsWait};
ghost use Rattle.machine.specs.Producers.{is_environment as by_environment};

use crate::waking::wake_all;
use instances::{Instances, Task};
use items::Items;
use std::alloc::AllocError;
use terms::{Addr, FaultKind, Inst, Producer, Put, Tag, facts_are_told_apart, orders_are_total};

/// What a store holds: its items, its tags with the instances that they prescribe, and the fault, if there is one.
#[derive(Drop)]
pub(crate) struct Memory {
    pub(crate) items: Items,
    pub(crate) instances: Instances,
    pub(crate) fault: Option<(Inst, FaultKind)>,
}

impl Memory {
    ghost use Rattle.std.specs.Prelude.{◌≡◌, ◌<◌, ◌≤◌, [], ◌∷◌, OnErr, OnOk, Some, false, length};
    ghost use Rattle.terms.specs.declared.put.TheConstants.{MOST_PUTS};
    ghost use Rattle.terms.specs.declared.put.Put.TheVariants.{Item, Tag as Name};
    ghost use Rattle.terms.specs.Facts.{item, tag as name, put_facts};
    ghost use Rattle.graph.specs.Fits.{IsAbsent, addresses};
    ghost use Rattle.items.specs.Held.{IsOfCollection, room_for, waiters_at};
    ghost use Rattle.items.specs.Once.{is_one_of};
    ghost use Rattle.instances.specs.declared.state.State.TheVariants.{Ready, Running};
    ghost use Rattle.instances.specs.Known.{MovesOne, room_for as tags_for, state_at};
    ghost use Rattle.machine.specs.Memory.{AreListed, facts_of};
    ghost use Rattle.machine.specs.Waking.{Awakens};
    ghost use Rattle.machine.specs.Coming.{CanTake, CanTakeAll, Grows, IsNewTo, fact_of, given_by};

    /// Puts what an instance put, one put after the other.
    pub(crate) fn put_all(&mut self, instance: Inst, puts: &[Put])
        requires listed { AreListed self.old }
        requires new { CanTakeAll self.old puts.now }
        requires few { length puts.now ≤ MOST_PUTS }
        ensures { Grows self.old self.new (put_facts instance 0 puts.now) [] puts.now }
    {
        facts_are_told_apart();
        for number in 0..puts.len() {
            let producer = instance;
            self.put(Producer::By(producer, number as u32), puts[number]);
        }
    }

    /// Puts an item that is not there, or a tag. A tag that is there stays as it is.
    pub(crate) fn put(&mut self, producer: Producer, put: Put)
        requires listed { AreListed self.old }
        requires room { CanTake self.old put }
        requires new { IsNewTo self.old producer put }
        ensures { Grows self.old self.new (fact_of producer put ∷ []) (given_by producer put) (put ∷ []) }
    {
        match put {
            Put::Item(addr, value) => self.put_item(addr, value, producer),
            Put::Tag(tag) => self.put_tag(tag, producer),
        }
    }

    // Puts an item that is not there, and makes the instances ready that wait for it.
    fn put_item(&mut self, addr: Addr, value: i64, producer: Producer)
        requires listed { AreListed self.old }
        requires absent { IsAbsent (facts_of self.old) addr }
        requires collection { IsOfCollection self.old.items addr.collection }
        requires room { 0 < room_for self.old.items addr.collection }
        ensures { Grows self.old self.new (item addr value producer ∷ []) (given_by producer (Item addr value)) (Item addr value ∷ []) }
    {
        facts_are_told_apart();
        orders_are_total();
        let place = addr;
        let waiters = self.items.take_waiters(place);
        wake_all(&mut self.instances, &waiters);
        let _ = self.items.put(addr, value, producer);
    }

    /// Makes the instances ready that wait for an item which one of these puts puts.
    pub(crate) fn wake_for(&mut self, puts: &[Put])
        requires { AreListed self.old }
        ensures { Awakens self.old self.new (addresses puts.now) }
    {
        for place in 0..puts.len() {
            self.wake_by(&puts[place]);
        }
    }

    // Makes the instances ready that wait for the item of a put, if it is of an item.
    fn wake_by(&mut self, put: &Put)
        requires { AreListed self.old }
        ensures { Awakens self.old self.new (addresses (put.now ∷ [])) }
    {
        match put {
            Put::Item(addr, _) => self.wake_at(*addr),
            Put::Tag(_) => {}
        }
    }

    // Makes the instances ready that wait at an address.
    fn wake_at(&mut self, addr: Addr)
        requires { AreListed self.old }
        ensures { Awakens self.old self.new (addr ∷ []) }
    {
        orders_are_total();
        let waiters = self.items.take_waiters(addr);
        wake_all(&mut self.instances, &waiters);
    }

    /// Lets an instance that runs wait at an address, where it is listed. If memory is refused, it is ready.
    pub(crate) fn park(&mut self, task: Task, addr: Addr) -> Result<(), AllocError>
        requires running { state_at self.old.instances task ≡ Some Running }
        requires unlisted { is_one_of task (waiters_at self.old.items addr) ≡ false }
        ensures ok { OnOk result (LetsWait self.old self.new task addr) }
        ensures refused { OnErr result (MovesOne self.old.instances self.new.instances task Ready × (self.new.items ≡ self.old.items)) }
        ensures fault { self.new.fault ≡ self.old.fault }
    {
        let inst = task.inst();
        let waiter = inst;
        let waited = addr;
        self.instances.park(task, waited)?;
        match self.items.wait_on(addr, waiter) {
            Ok(()) => Ok(()),
            Err(error) => {
                self.instances.wake(inst);
                Err(error)
            }
        }
    }

    // Puts a tag, if it is not there.
    fn put_tag(&mut self, tag: Tag, producer: Producer)
        requires listed { AreListed self.old }
        requires room { 0 < tags_for self.old.instances tag.collection }
        requires new { IsNewTo self.old producer (Name tag) }
        ensures { Grows self.old self.new (name tag ∷ []) (given_by producer (Name tag)) (Name tag ∷ []) }
    {
        self.instances.are_there_together();
        let name = tag;
        if self.instances.mark(name).is_none() {
            self.instances.prescribe(tag, is_environment(&producer));
        }
    }
}

// Whether the environment is the producer.
fn is_environment(producer: &Producer) -> bool
    ensures { result ≡ by_environment producer.now }
{
    match producer {
        Producer::Env => true,
        Producer::By(_, _) => false,
    }
}
