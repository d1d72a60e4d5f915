//! Lets one ready instance of a store in memory run, to its end or to an item that is not there.
ghost use Rattle.std.specs.Prelude.{◌≡◌, Some};
ghost use Rattle.terms.specs.declared.event.Event.TheVariants.{Done};
ghost use Rattle.instances.specs.declared.state.State.TheVariants.{Running};
ghost use Rattle.machine.specs.Legal.{IsLegal};
ghost use Rattle.machine.specs.Machine.{facts, state_of};
ghost use Rattle.machine.specs.Meaning.{BodyFaults, BodyGives};
ghost use Rattle.commit.specs.Came.{CameTo};

use commit::{Came, Outcome, run_body};
use instances::Task;
use machine::{End, Machine, given_are_of_graph, results_are_meant};
use std::alloc::{AllocError, Global};
use std::sync::Arc;
use terms::{FaultKind, Put};

/// Lets the ready instance with this number run, to its end or to an item that is not there. If memory is refused, it is
/// ready again.
pub(crate) fn run_ready(alloc: Global, machine: &mut Machine, at: usize) -> Result<(), AllocError> {
    let graph = Arc::clone(machine.graph())?;
    let Some(task) = machine.claim(at) else {
        return Ok(());
    };
    match run_body(alloc, machine, &graph, task.inst()) {
        Ok(came) => settle(machine, task, came),
        Err(error) => {
            machine.release(task);
            Err(error)
        }
    }
}

// Ends the instance of a task, or lets it wait.
fn settle(machine: &mut Machine, task: Task, came: Came<'_>) -> Result<(), AllocError>
    requires running { state_of machine.old task ≡ Some Running }
    requires came { CameTo machine.old task came }
{
    results_are_meant();
    match came {
        Came::Ended(Outcome::Gave(given)) => end(machine, task, given.into_puts().as_slice()),
        Came::Ended(Outcome::Fault(bad)) => {
            stop(machine, task, bad.kind());
            Ok(())
        }
        Came::Waits(parked) => machine.park(task, parked.address()),
    }
}

// Ends the instance of a task that gave these puts. If the store already has a fault, the instance is ready again.
fn end(machine: &mut Machine, task: Task, puts: &[Put]) -> Result<(), AllocError>
    requires running { state_of machine.old task ≡ Some Running }
    requires gives { BodyGives machine.old.graph (facts machine.old) task puts.now }
{
    match machine.may_end(&task, puts) {
        Ok(End::Done) => finish(machine, task, puts),
        Ok(End::DoublePut) => {
            machine.take_fault(task, FaultKind::DoublePut);
            Ok(())
        }
        Err(_) => {
            machine.release(task);
            Ok(())
        }
    }
}

// Takes the end of an instance. If memory is refused, the instance is ready again.
fn finish(machine: &mut Machine, task: Task, puts: &[Put]) -> Result<(), AllocError>
    requires running { state_of machine.old task ≡ Some Running }
    requires legal { IsLegal machine.old.graph (facts machine.old) (Done task puts.now) }
{
    machine.is_kept();
    given_are_of_graph();
    match machine.make_room(puts) {
        Ok(()) => {
            machine.take_end(task, puts);
            Ok(())
        }
        Err(error) => {
            machine.release(task);
            Err(error)
        }
    }
}

// Takes the fault of an instance. If the store already has a fault, the instance is ready again.
fn stop(machine: &mut Machine, task: Task, kind: FaultKind)
    requires running { state_of machine.old task ≡ Some Running }
    requires faults { BodyFaults machine.old.graph (facts machine.old) task kind }
{
    match machine.may_stop(&task, kind) {
        Ok(()) => machine.take_fault(task, kind),
        Err(_) => machine.release(task),
    }
}
