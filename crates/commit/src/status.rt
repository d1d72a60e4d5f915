use crate::{Core, CoreError};
use disk::Disk;
use graph::Graph;
use instances::{State, Task};
use machine::{Machine, reached_and_quiet, reached_within};
use std::alloc::Global;
use std::sync::Arc;
use terms::{Addr, FaultKind, Inst};
use vault::VaultError;

/// How far a store is.
#[derive(Clone, Copy, Debug, PartialEq, Eq)]
pub enum Status {
    /// An instance is ready or runs, and there is no fault.
    Working,
    /// Nothing is left to do: `blocked` instances wait for items that are not there.
    Quiet { blocked: usize },
    /// The store is stopped by this fault of this instance.
    Stopped(Inst, FaultKind),
}

impl<D: Disk> Core<D> {
    ghost use Rattle.std.specs.Prelude.{◌≡◌, ◌↔◌, ◌-◌, ◌^◌, false, true, Some, IfErr, IfOk, IsTrue, OnOk, length, min};
    ghost use Rattle.instances.specs.declared.state.State.TheVariants.{Running};
    ghost use Rattle.machine.specs.Machine.{waiting_count};
    ghost use Rattle.machine.specs.Status.{AreBlocked, AreUnfinished, TellsFault};
    ghost use Rattle.commit.specs.Core.{graph, is_halted, state_of};
    ghost use Rattle.commit.specs.Gets.{SaysHalted, SaysHaltedOrNoMemory};
    ghost use Rattle.commit.specs.Runs.{NoneRuns};
    ghost use Rattle.commit.specs.Status.{TellsStatus, SaysOfMeaning};
    ghost use Rattle.commit.specs.Steps.{MayClaim, ready_count, running_count};

    /// How far the store is. If legal events led there: a quiet store has nothing left to do, and its facts are the
    /// meaning of the graph on what the environment put; that meaning has the fault of a stopped one. It takes no memory.
    pub fn status(&self) -> Result<Status, CoreError>
        ensures told { IfOk result (TellsStatus self.now) }
        ensures meaning { IfOk result (SaysOfMeaning self.now) }
        ensures working { OnOk result (is_halted self.now ≡ false) }
        ensures halted { IfErr result (SaysHalted self.now) }
    {
        if self.vault.is_halted() {
            return Err(CoreError::Store(VaultError::Halted));
        }
        // What is known of a fault of a state that legal events led to.
        reached_within();
        reached_and_quiet();
        if let Some((instance, kind)) = self.machine.fault() {
            return Ok(Status::Stopped(instance, kind));
        }
        if self.machine.is_quiet() {
            let blocked = self.machine.waiting();
            Ok(Status::Quiet { blocked })
        } else {
            Ok(Status::Working)
        }
    }

    /// The instances that wait, each with the address of the item that it needs, by step and then by key. They are as many
    /// as `status` says are blocked.
    pub fn blocked(&self, alloc: Global) -> Result<Vec<(Inst, Addr)>, CoreError>
        ensures blocked { IfOk result (λ list. AreBlocked self.now.machine list.items) }
        ensures unfinished { IfOk result (λ list. AreUnfinished self.now.machine list.items) }
        ensures counted { IfOk result (λ list. length list.items ≡ waiting_count self.now.machine) }
        ensures working { OnOk result (is_halted self.now ≡ false) }
        ensures refused { IfErr result (SaysHaltedOrNoMemory self.now) }
    {
        if self.vault.is_halted() {
            return Err(CoreError::Store(VaultError::Halted));
        }
        match self.machine.blocked(alloc) {
            Ok(list) => Ok(list),
            Err(_) => Err(CoreError::Store(VaultError::NoMemory)),
        }
    }

    /// The graph.
    pub fn graph(&self) -> &Arc<Graph>
        ensures { result.now.value ≡ graph self.now }
    {
        self.machine.graph()
    }

    /// What it holds in memory.
    pub fn machine(&self) -> &Machine
        ensures { result.now ≡ self.now.machine }
    {
        &self.machine
    }

    /// The instance at fault, if there is one.
    pub fn fault(&self) -> Option<(Inst, FaultKind)>
        ensures { TellsFault self.now.machine result }
    {
        self.machine.fault()
    }

    /// How many instances are ready, or the greatest `usize` if they are more.
    pub fn ready(&self) -> usize
        ensures { result ≡ min (ready_count self.now) (2 ^ 64 - 1) }
    {
        self.machine.ready()
    }

    /// Whether `claim(0)` gives an instance: the core is not halted, one is ready, the allowance is greater than the number that run, and no fault stopped the store.
    pub fn may_claim(&self) -> bool
        ensures { (result ≡ true) ↔ ((is_halted self.now ≡ false) × MayClaim self.now 0) }
    {
        if self.vault.is_halted() {
            return false;
        }
        if let Some(_) = self.machine.fault() {
            return false;
        }
        if self.machine.running() as u64 >= self.allowance {
            return false;
        }
        self.machine.ready() != 0
    }

    /// How many instances run, or the greatest `usize` if they are more.
    pub fn running(&self) -> usize
        ensures count { result ≡ running_count self.now }
        ensures none { (result ≡ 0) ↔ NoneRuns self.now }
    {
        self.machine.are_counted();
        self.machine.running()
    }

    /// Whether the instance of a task runs here.
    pub fn runs(&self, task: &Task) -> bool
        ensures { IsTrue result ↔ (state_of self.now task.now ≡ Some Running) }
    {
        self.machine.runs(task)
    }
}
