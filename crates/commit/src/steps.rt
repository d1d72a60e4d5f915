use crate::{Came, Core, CoreError, run_body};
use disk::Disk;
use graph::Graph;
use instances::Task;
use machine::results_are_meant;
use std::alloc::Global;
use steplang::Parked;
use terms::Put;
use vault::VaultError;

impl<D: Disk> Core<D> {
    ghost use Rattle.std.specs.Prelude.{◌≡◌, Some, IfOk, OnErr, Err};
    ghost use Rattle.instances.specs.declared.state.State.TheVariants.{Ready, Running};
    ghost use Rattle.vault.specs.declared.error.VaultError.TheVariants.{NoMemory};
    ghost use Rattle.commit.specs.declared.error.CoreError.TheVariants.{Store};
    ghost use Rattle.commit.specs.Came.{CameTo};
    ghost use Rattle.commit.specs.Core.{graph as graph_of, state_of};
    ghost use Rattle.commit.specs.Steps.{Claims, IsParkedOf, Moves, Parks, SetsAllowance, Wakes};

    /// Lets `count` steps be committed from now on, or as many as run now if these are more.
    ///
    /// Before the first call the number is 1,000,000,000.
    pub fn allow(&mut self, count: u64) -> Result<(), CoreError>
        ensures { SetsAllowance self.old self.new count result }
    {
        if self.vault.is_halted() {
            return Err(CoreError::Store(VaultError::Halted));
        }
        self.allowance = count.max(self.machine.running() as u64);
        Ok(())
    }

    /// How many steps may still be committed, including those that run.
    pub fn allowance(&self) -> u64
        ensures { result ≡ self.now.allowance }
    {
        self.allowance
    }

    /// Lets one of the ready instances run, by its number among them; it is unspecified which one a number stands for.
    /// Returns `None` if the number is not below theirs, if those that run use up what is left of the allowance, and in a
    /// store that a fault stopped.
    pub fn claim(&mut self, at: usize) -> Result<Option<Task>, CoreError>
        ensures { Claims self.old self.new at result }
    {
        if self.vault.is_halted() {
            return Err(CoreError::Store(VaultError::Halted));
        }
        if self.machine.running() as u64 >= self.allowance {
            return Ok(None);
        }
        Ok(self.machine.claim(at))
    }

    /// Lets the instance of a task wait for the item that its body asks for, unless the item is there by now: then the
    /// instance is ready.
    ///
    /// The result must be of the task's instance and of the body of its step in this graph, and the items that it read
    /// must be items of this core. If it is refused the instance is ready: `Halted`, and `NoMemory` if memory was
    /// refused.
    pub fn park(&mut self, task: Task, parked: &Parked<'_>) -> Result<(), CoreError>
        requires running { state_of self.old task ≡ Some Running }
        requires result { IsParkedOf self.old task parked.now }
        ensures { Parks self.old self.new task parked.now.address result }
    {
        results_are_meant();
        if self.vault.is_halted() {
            self.machine.release(task);
            return Err(CoreError::Store(VaultError::Halted));
        }
        let address = parked.address();
        if let Err(_) = self.machine.park(task, address) {
            return Err(CoreError::Store(VaultError::NoMemory));
        }
        Ok(())
    }

    /// As `park`. The run is let go.
    pub(crate) fn let_wait(&mut self, task: Task, parked: Parked<'_>) -> Result<(), CoreError>
        requires running { state_of self.old task ≡ Some Running }
        requires result { IsParkedOf self.old task parked }
        ensures { Parks self.old self.new task parked.entry.address result }
    {
        self.park(task, &parked)
    }

    /// Gives the instance of a task back: it is ready.
    pub fn release(&mut self, task: Task)
        requires { state_of self.old task ≡ Some Running }
        ensures { Moves self.old self.new task Ready }
    {
        self.machine.release(task);
    }

    /// Makes the instances ready that wait for an item which one of these puts puts, although the item may not be here: so that their bodies can
    /// be run over results that are not committed yet.
    pub fn wake(&mut self, puts: &[Put])
        ensures { Wakes self.old self.new puts.now }
    {
        self.machine.wake(puts);
    }

    /// Runs the body of the instance of a task over the items that are here, to its end or to an item that is not. The
    /// graph is this core's, passed by itself, so that the core can take the result.
    pub fn run<'a>(
        &self,
        alloc: Global,
        graph: &'a Graph,
        task: &Task,
    ) -> Result<Came<'a>, CoreError>
        requires graph { graph.now ≡ graph_of self.now }
        requires running { state_of self.now task.now ≡ Some Running }
        ensures came { IfOk result (CameTo self.now.machine task.now) }
        ensures refused { OnErr result (result ≡ Err (Store NoMemory)) }
    {
        match run_body(alloc, &self.machine, graph, task.inst()) {
            Ok(came) => Ok(came),
            Err(_) => Err(CoreError::Store(VaultError::NoMemory)),
        }
    }
}
