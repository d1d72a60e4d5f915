use crate::Machine;
use crate::states::{reached_and_quiet, unfinished_wait};
use std::alloc::{AllocError, Global};
use steptree::ends_once;
use terms::{Addr, FaultKind, Inst, facts_are_told_apart, orders_are_total};

impl Machine {
    ghost use Rattle.std.specs.Prelude.{◌≡◌, ◌↔◌, ◌-◌, ◌^◌, IfOk, IsTrue, length, min};
    ghost use Rattle.graph.specs.Fits.{HasNoFault};
    ghost use Rattle.machine.specs.Legal.{IsQuiet};
    ghost use Rattle.machine.specs.Machine.{facts, ready_count, running_count, waiting_count};
    ghost use Rattle.machine.specs.Status.{AreBlocked, AreCounted, AreUnfinished, IsAllOfMeaning, NoneIsActive, TellsFault};

    /// The instance at fault, if there is one.
    pub fn fault(&self) -> Option<(Inst, FaultKind)>
        ensures { TellsFault self.now result }
    {
        facts_are_told_apart();
        self.memory.fault
    }

    /// Whether no instance is ready or running, and there is no fault: then nothing is left to do. If an instance is ready that
    /// would only wait, nothing is left to do either, but this is false until that instance has run.
    pub fn is_quiet(&self) -> bool
        ensures exact { IsTrue result ↔ (HasNoFault (facts self.now) × NoneIsActive self.now) }
        ensures quiet { IsTrue result → IsQuiet self.now.graph (facts self.now) }
        ensures meaning { IsTrue result → IsAllOfMeaning self.now }
    {
        facts_are_told_apart();
        orders_are_total();
        reached_and_quiet();
        self.memory.instances.are_there_together();
        self.memory.fault.is_none() && self.memory.instances.is_quiet()
    }

    /// The number of ready instances, or `usize::MAX` if there are more.
    pub fn ready(&self) -> usize
        ensures { result ≡ min (ready_count self.now) (2 ^ 64 - 1) }
    {
        self.memory.instances.ready()
    }

    /// The number of running instances, or `usize::MAX` if there are more.
    pub fn running(&self) -> usize
        ensures { result ≡ min (running_count self.now) (2 ^ 64 - 1) }
    {
        self.memory.instances.running()
    }

    /// The number of waiting instances, or `usize::MAX` if there are more.
    pub fn waiting(&self) -> usize
        ensures { result ≡ min (waiting_count self.now) (2 ^ 64 - 1) }
    {
        self.memory.instances.waiting()
    }

    /// The instances that wait, each with the address of the item that it needs, sorted by step and then by key.
    pub fn blocked(&self, alloc: Global) -> Result<Vec<(Inst, Addr)>, AllocError>
        ensures blocked { IfOk result (λ list. AreBlocked self.now list.items) }
        ensures unfinished { IfOk result (λ list. AreUnfinished self.now list.items) }
        ensures counted { IfOk result (λ list. length list.items ≡ waiting_count self.now) }
    {
        facts_are_told_apart();
        orders_are_total();
        ends_once();
        unfinished_wait();
        self.memory.instances.are_there_together();
        self.memory.instances.blocked(alloc)
    }

    /// A law, with nothing to run: a count of instances is zero exactly if no instance is in such a state.
    pub fn are_counted(&self)
        ensures { AreCounted self.now }
    {
        self.memory.instances.are_counted();
    }
}
