ghost use Rattle.std.specs.Prelude.{◌≡◌, false, true, Ok};
ghost use Rattle.commit.specs.declared.verdict.Verdict.TheVariants.{Halted};
ghost use Rattle.commit.specs.Core.{is_halted};
ghost use Rattle.commit.specs.Runs.{NoneRuns, RunsWithin};

use crate::{Came, Choose, Core, CoreError, RunError, Status, Verdict};
use disk::Disk;
use graph::Graph;
use instances::{Task, runs_are_counted};
use std::alloc::Global;
use std::sync::Arc;
use terms::facts_are_told_apart;
use vault::{VaultError, stores_go_on};

/// Runs the steps of a store on one thread, until nothing is left to do, or `limit` of them came to their end. The
/// chooser picks which instance runs next: where nothing is left to do the facts don't depend on it; which fault is
/// reported may, and where the limit is met.
///
/// Returns the core with the verdict. An error leaves all that was committed. No instance may run in the core that is
/// given, and none runs in the one that is returned.
pub fn run_with<D: Disk, C: Choose>(
    alloc: Global,
    core: Core<D>,
    chooser: &mut C,
    limit: u64,
) -> (Core<D>, Result<Verdict, RunError>)
    requires { NoneRuns core }
    ensures idle { NoneRuns result.0 }
    ensures halted { is_halted core ≡ true → (result.0 ≡ core) × (result.1 ≡ Ok Halted) }
    ensures runs { is_halted core ≡ false → RunsWithin D.Disk false false core result.0 limit result.1 }
{
    let mut core = core;
    let verdict = core.run_within(alloc, chooser, limit);
    (core, verdict)
}

impl<D: Disk> Core<D> {
    ghost use Rattle.std.specs.Prelude.{◌≡◌, ◌≢◌, false, true, Some, Ok, IfErr, IfOk, OnOk};
    ghost use Rattle.instances.specs.declared.state.State.TheVariants.{Running};
    ghost use Rattle.graph.specs.Fits.{HasNoFault};
    ghost use Rattle.terms.specs.declared.name.Inst.{Inst as Instance};
    ghost use Rattle.commit.specs.declared.verdict.Verdict.TheVariants.{Halted};
    ghost use Rattle.commit.specs.Core.{facts, graph as graph_of, is_halted, state_of};
    ghost use Rattle.commit.specs.Runs.{EndsEarly, HasAsMany, NoneRuns, RanOn, RunsOn, RunsWithin, TellsAlone};
    ghost use Rattle.commit.specs.Steps.{MayClaim};

    // Runs the steps, as `run_with` does.
    fn run_within<C: Choose>(
        &mut self,
        alloc: Global,
        chooser: &mut C,
        limit: u64,
    ) -> Result<Verdict, RunError>
        requires idle { NoneRuns self.old }
        ensures idle { NoneRuns self.new }
        ensures halted { is_halted self.old ≡ true → (self.new ≡ self.old) × (result ≡ Ok Halted) }
        ensures runs { is_halted self.old ≡ false → RunsWithin D.Disk false false self.old self.new limit result }
    {
        self.is_kept();
        match self.allow(limit) {
            Ok(()) => {
                let went = self.run_allowed(alloc, chooser);
                self.verdict(went)
            }
            Err(_) => Ok(Verdict::Halted),
        }
    }

    // Runs the steps until nothing may be claimed, or a call is refused.
    fn run_allowed<C: Choose>(&mut self, alloc: Global, chooser: &mut C) -> Result<(), CoreError>
        requires idle { NoneRuns self.old }
        requires working { is_halted self.old ≡ false }
        ensures idle { NoneRuns self.new }
        ensures runs { RunsOn D.Disk self.old self.new }
        ensures ok { OnOk result (MayClaim self.new 0 → ⊥) }
        ensures err { IfErr result (EndsEarly self.new) }
    {
        stores_go_on::<D>();
        self.is_kept();
        match Arc::clone(self.graph()) {
            Ok(graph) => self.run_ends(alloc, &graph, chooser),
            Err(_) => Err(CoreError::Store(VaultError::NoMemory)),
        }
    }

    // Commits the end of one instance after another.
    fn run_ends<C: Choose>(
        &mut self,
        alloc: Global,
        graph: &Graph,
        chooser: &mut C,
    ) -> Result<(), CoreError>
        requires graph { graph.now ≡ graph_of self.old }
        requires idle { NoneRuns self.old }
        requires working { is_halted self.old ≡ false }
        ensures idle { NoneRuns self.new }
        ensures runs { RunsOn D.Disk self.old self.new }
        ensures ok { OnOk result (MayClaim self.new 0 → ⊥) }
        ensures err { IfErr result (EndsEarly self.new) }
    {
        facts_are_told_apart();
        stores_go_on::<D>();
        self.is_kept();
        loop {
            match self.run_to_end(alloc, graph, chooser) {
                Ok(true) => {}
                Ok(false) => return Ok(()),
                Err(error) => return Err(error),
            }
        }
    }

    // Runs ready instances until one comes to its end. Returns whether one did.
    fn run_to_end<C: Choose>(
        &mut self,
        alloc: Global,
        graph: &Graph,
        chooser: &mut C,
    ) -> Result<bool, CoreError>
        requires graph { graph.now ≡ graph_of self.old }
        requires idle { NoneRuns self.old }
        requires working { is_halted self.old ≡ false }
        ensures idle { NoneRuns self.new }
        ensures runs { RunsOn D.Disk self.old self.new }
        ensures ok { IfOk result (RanOn self.old self.new (MayClaim self.new 0 → ⊥)) }
        ensures err { IfErr result (EndsEarly self.new) }
    {
        facts_are_told_apart();
        stores_go_on::<D>();
        self.is_kept();
        loop {
            self.is_kept();
            let ready = self.ready();
            if ready == 0 {
                return Ok(false);
            }
            match self.claim(chooser.pick(ready)) {
                Ok(Some(task)) => match self.run_task(alloc, graph, task) {
                    Ok(false) => {}
                    Ok(true) => return Ok(true),
                    Err(error) => return Err(error),
                },
                Ok(None) => return Ok(false),
                Err(error) => return Err(error),
            }
        }
    }

    // Runs the instance of a task, to its end, which is committed, or to an item that is not there. Returns whether it
    // came to its end.
    fn run_task(&mut self, alloc: Global, graph: &Graph, task: Task) -> Result<bool, CoreError>
        requires graph { graph.now ≡ graph_of self.old }
        requires running { state_of self.old task ≡ Some Running }
        requires alone { (instance : Instance) → instance ≢ task → state_of self.old instance ≢ Some Running }
        requires goes_on { (is_halted self.old ≡ false) × HasNoFault (facts self.old) }
        ensures idle { NoneRuns self.new }
        ensures runs { RunsOn D.Disk self.old self.new }
        ensures ok { IfOk result (RanOn self.old self.new (HasAsMany self.old self.new)) }
        ensures err { IfErr result (EndsEarly self.new) }
    {
        stores_go_on::<D>();
        runs_are_counted();
        self.is_kept();
        match self.run(alloc, graph, &task) {
            Ok(Came::Ended(outcome)) => match self.finish(task, outcome) {
                Ok(_) => Ok(true),
                Err(error) => Err(error),
            },
            Ok(Came::Waits(parked)) => match self.let_wait(task, parked) {
                Ok(()) => Ok(false),
                Err(error) => Err(error),
            },
            Err(error) => {
                self.release(task);
                Err(error)
            }
        }
    }

    // The verdict after a run that ended with this result.
    fn verdict(&self, went: Result<(), CoreError>) -> Result<Verdict, RunError>
        requires idle { NoneRuns self.now }
        requires ok { OnOk went (MayClaim self.now 0 → ⊥) }
        requires err { IfErr went (EndsEarly self.now) }
        ensures { TellsAlone self.now result }
    {
        self.is_kept();
        match self.status() {
            Ok(Status::Stopped(instance, kind)) => Ok(Verdict::Stopped(instance, kind)),
            Ok(Status::Quiet { blocked }) => {
                if blocked == 0 {
                    Ok(Verdict::Complete)
                } else {
                    Ok(Verdict::Blocked(blocked))
                }
            }
            Ok(Status::Working) => match went {
                Ok(()) => Ok(Verdict::Limit),
                Err(CoreError::Store(VaultError::Full)) => Err(RunError::Full),
                Err(_) => Err(RunError::NoMemory),
            },
            Err(_) => Ok(Verdict::Halted),
        }
    }
}
