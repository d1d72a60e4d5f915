ghost use Rattle.machine.specs.Machine.{LetsRun};

use crate::Machine;
use instances::Task;
use std::alloc::AllocError;
use terms::{Addr, Put, facts_are_told_apart, orders_are_total};

impl Machine {
    ghost use Rattle.std.specs.Prelude.{◌≡◌, ◌<◌, IfSome, IsSome, OnErr, OnOk, None, Some};
    ghost use Rattle.instances.specs.declared.state.State.TheVariants.{Ready, Running};
    ghost use Rattle.graph.specs.Fits.{IsAbsent, HasNoFault};
    ghost use Rattle.machine.specs.Legal.{Needs};
    ghost use Rattle.machine.specs.Machine.{LooksAgain, Moves, WakesFor, facts, ready_count, state_of};

    /// Lets one of the ready instances run, by its index among them; which instance an index stands for is unspecified. `None`
    /// if the index is not below their number, or if a fault stopped the store.
    pub fn claim(&mut self, at: usize) -> Option<Task>
        ensures some { at < ready_count self.old → HasNoFault (facts self.old) → IsSome result }
        ensures below { IfSome result (λ task. at < ready_count self.old) }
        ensures claimed { IfSome result (LetsRun self.old self.new) }
        ensures none { result ≡ None → self.new ≡ self.old }
    {
        facts_are_told_apart();
        orders_are_total();
        if self.memory.fault.is_some() {
            return None;
        }
        self.memory.instances.claim(at)
    }

    /// Lets the instance of a task wait for an item, unless the item is there by now: then the instance is ready.
    ///
    /// If memory is refused, the instance is ready.
    pub fn park(&mut self, task: Task, addr: Addr) -> Result<(), AllocError>
        requires running { state_of self.old task ≡ Some Running }
        requires needs { IsAbsent (facts self.old) addr → Needs self.old.graph (facts self.old) task addr }
        ensures ok { OnOk result (LooksAgain self.old self.new task addr) }
        ensures refused { OnErr result (IsAbsent (facts self.old) addr × Moves self.old self.new task Ready) }
    {
        facts_are_told_apart();
        orders_are_total();
        let place = addr;
        if self.memory.items.get(place).is_some() {
            self.memory.instances.release(task);
            return Ok(());
        }
        self.memory.park(task, addr)
    }

    /// Gives the instance of a task back: it is ready.
    pub fn release(&mut self, task: Task)
        requires { state_of self.old task ≡ Some Running }
        ensures { Moves self.old self.new task Ready }
    {
        orders_are_total();
        self.memory.instances.release(task);
    }

    /// Makes the instances ready that wait for an item which one of these puts puts, although the item may not be there: so that their bodies can
    /// be run over results that are not committed yet.
    pub fn wake(&mut self, puts: &[Put])
        ensures { WakesFor self.old self.new puts.now }
    {
        self.memory.wake_for(puts);
    }
}
