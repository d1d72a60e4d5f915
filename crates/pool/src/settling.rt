//! How a worker gives back what it has claimed, and what it meets by the answer.
ghost use Rattle.std.specs.Prelude.{◌≡◌, false, IfErr, IsErrOf, None, Some};
ghost use mathlib.Core.List.{IsPrefix};
ghost use Rattle.vault.specs.declared.error.VaultError.TheVariants.{Full};
ghost use Rattle.commit.specs.declared.error.CoreError.TheVariants.{Store};
ghost use Rattle.commit.specs.Came.{IsOutcomeIn};
ghost use Rattle.hub.specs.Opening.{facts_behind};
ghost use Rattle.hub.specs.Running.{WaitsIn};
ghost use Rattle.hub.specs.Tasks.{OnTask};
ghost use Rattle.hub.specs.declared.error.BatchError.TheVariants.{Refused as AllRefused};
ghost use Rattle.pool.specs.declared.worker.Met.TheVariants.{Asked as MetAsked, Full as MetFull};
ghost use Rattle.pool.specs.Worked.{IsHand, Justifies, came_after, met_after, met_by};

use crate::hand::Hand;
use crate::worker::Met;
use commit::{Batch, CoreError, Outcome};
use disk::Disk;
use hub::{BatchError, Hub, TaskError, WorkPass};
use instances::Task;
use machine::Ended;
use passes::Naming;
use std::sync::Wait;
use steplang::Run;
use vault::VaultError;

/// Lets the instance wait for the item that its body asks for. Its run is kept.
pub(crate) fn park<'a, J: Naming, D: Disk, R: Wait>(
    rt: &R,
    hub: &'a Hub<J, D>,
    pass: &mut WorkPass<J>,
    hand: &mut Hand<'a>,
    task: Task,
    run: Run<'a>,
) -> Option<Met>
    requires run { WaitsIn J.opening.graph (facts_behind J.opening pass.old.seen) task run }
    requires hand { IsHand J.opening pass.old.seen hand.old }
    ensures hand { IsHand J.opening pass.new.seen hand.new }
    ensures ahead { IsPrefix pass.old.seen pass.new.seen }
    ensures asked { result ≡ Some MetAsked → ⊥ }
    ensures full { result ≡ Some MetFull → ⊥ }
{
    let parked = run.park();
    let met = settled(rt, hub.park(rt, pass, task, &parked));
    hand.waiting.keep(pass, parked);
    met
}

/// Commits the outcome of an instance by itself.
pub(crate) fn finish<'a, J: Naming, D: Disk, R: Wait>(
    rt: &R,
    hub: &'a Hub<J, D>,
    pass: &mut WorkPass<J>,
    task: Task,
    outcome: Outcome<'a>,
) -> Option<Met>
    requires { IsOutcomeIn J.opening.graph (facts_behind J.opening pass.old.seen) task outcome }
    ensures ahead { IsPrefix pass.old.seen pass.new.seen }
    ensures asked { result ≡ Some MetAsked → ⊥ }
    ensures full { Justifies J.opening result pass.new }
{
    settled(rt, hub.finish(rt, pass, task, outcome))
}

/// What ends the worker, given the answer of a call that spent its task; or nothing.
pub(crate) fn settled<T: Drop, R: Wait>(rt: &R, answer: Result<T, TaskError>) -> Option<Met>
    ensures met { result ≡ met_after answer }
    ensures asked { result ≡ Some MetAsked → ⊥ }
    ensures full { result ≡ Some MetFull → OnTask answer (λ _. ⊥) (λ answer. IsErrOf answer (Store Full)) }
{
    match answer {
        Ok(done) => {
            drop(done);
            None
        }
        Err(TaskError::Refused(error)) => Some(met_of(error)),
        Err(TaskError::Foreign(task)) => stranded(rt, task),
    }
}

/// Whether all of a batch came as it is, given the answer of the call that spent it; or what ends the worker.
pub(crate) fn settled_all<R: Wait>(
    rt: &R,
    answer: Result<Ended, BatchError<'_>>,
) -> Result<bool, Met>
    ensures met { result ≡ came_after answer.entry }
    ensures asked { IfErr result (λ met. met ≡ MetAsked → ⊥) }
    ensures full { IfErr result (λ met. met ≡ MetFull → IsErrOf answer.entry (AllRefused (Store Full))) }
{
    match answer {
        Ok(ended) => Ok(ended.stopped.is_none()),
        Err(BatchError::Refused(error)) => Err(met_of(error)),
        Err(BatchError::Foreign(batch)) => Ok(stranded_batch(rt, batch)),
    }
}

// No task of this hub is foreign to it, though no clause says so: this is never called. It does not return, since a
// task cannot be dropped.
fn stranded<R: Wait>(rt: &R, task: Task) -> Option<Met>
    ensures { result ≡ None }
{
    for _ in rt.forever() {}
    let _ = task.inst();
    unreachable!()
}

// The same for a batch.
fn stranded_batch<R: Wait>(rt: &R, batch: Batch<'_>) -> bool
    ensures { result ≡ false }
{
    for _ in rt.forever() {}
    batch.len();
    unreachable!()
}

/// What a worker meets by an error of a run, which reads and commits nothing.
pub(crate) fn stopped_by(error: CoreError) -> Met
    ensures { (result ≡ MetFull → ⊥) × (result ≡ MetAsked → ⊥) }
{
    match error {
        CoreError::Store(VaultError::NoMemory) => Met::NoMemory,
        _ => Met::Other,
    }
}

/// What a worker meets by an error of a call that spent a task or a batch.
pub(crate) fn met_of(error: CoreError) -> Met
    ensures met { result ≡ met_by error }
    ensures asked { result ≡ MetAsked → ⊥ }
    ensures full { result ≡ MetFull → error ≡ Store Full }
{
    match error {
        CoreError::Store(VaultError::Full) => Met::Full,
        CoreError::Store(VaultError::NoMemory) => Met::NoMemory,
        _ => Met::Other,
    }
}
