ghost use Rattle.std.specs.Prelude.{◌≡◌, [], ◌∷◌, true, None, Ok, OnErr, OnOk, IfErr, IfOk, IfSome};

use crate::glance::Glance;
use crate::{BatchError, EnvPass, Kept, TaskError, Visit, WorkPass};
use cells::Watch;
use commit::{Batch, Committed, CoreError, Outcome};
use disk::Disk;
use graph::Graph;
use instances::{Task, Tasks};
use machine::Ended;
use passes::{Board, Kind, Naming, Pass};
use std::alloc::Global;
use std::sync::{Arc, Mutex, MutexGuard, Wait};
use std::thread::yield_now;
use steplang::Parked;
use terms::{Addr, Tag};

// How often a thread looks whether the lock is free before it sleeps. It yields to other threads after each look. A thread that sleeps has to be woken, which
// takes tens of microseconds, and the lock may be reserved for it meanwhile.
const LOOKS: u32 = 128;

/// A store that threads share. Each thread calls it with a pass of its own. After each locked call the pass has seen a
/// history that begins with what it had seen before.
///
/// The locked calls wait for each other. `graph`, `commits`, `ask_stop` and `stop_asked` wait for nobody.
pub struct Hub<J: Naming, D: Disk> {
    pub(crate) board: Board<J>,
    pub(crate) kept: Mutex<Kept<J, D>>,
    pub(crate) graph: Arc<Graph>,
    pub(crate) count: usize,
    pub(crate) glance: Glance,
    ghost counted: { count ≡ J.passes },
    ghost of_opening: { graph.value ≡ J.opening.graph },
}

impl<J: Naming, D: Disk + Drop> Drop for Hub<J, D> {
    fn drop(self) {
        let Hub {
            board: _,
            kept: _,
            graph: _,
            count: _,
            glance: _,
        } = self;
    }
}

impl<J: Naming, D: Disk> Hub<J, D> {
    ghost use Rattle.terms.specs.declared.event.Event.TheVariants.{EnvItem, EnvTag};
    ghost use Rattle.machine.specs.Machine.{IsValueAt, RefusesItem, RefusesTag, RefusesGet, RefusesRead};
    ghost use Rattle.graph.specs.Fits.{AddressIsOf};
    ghost use Rattle.graph.specs.Graph.{EnvironmentMayGet};
    ghost use Rattle.passes.specs.Known.{told_of, asked_of, heard_of};
    ghost use Rattle.passes.specs.Steps.{IsCountFor};
    ghost use Rattle.hub.specs.Opening.{facts_behind};
    ghost use Rattle.commit.specs.Came.{IsOutcomeIn, IsParkedIn};
    ghost use Rattle.hub.specs.Ends.{AddsEnd};
    ghost use Rattle.hub.specs.Replies.{Adds, AddsNothing, MayRun, RefusesEvent, RefusesQuestion, RefusesWait, RefusesWatch, SaysHalted, Sees};
    ghost use Rattle.hub.specs.Tasks.{OnTask, RefusesEndOf, RefusesTask};
    ghost use Rattle.commit.specs.Batch.{HaveOutcomes, ends_said};
    ghost use Rattle.hub.specs.Batches.{AddsTogether, RefusesBatch, RefusesTogether};
    ghost use Rattle.hub.specs.Claims.{AddsClaimed, RefusesClaims};

    // Takes the hub apart.
    pub(crate) fn into_parts(self) -> (Board<J>, Kept<J, D>, Arc<Graph>, usize)
        ensures graph { result.2.value ≡ J.opening.graph }
        ensures count { result.3 ≡ J.passes }
    {
        let Hub {
            board,
            kept,
            graph,
            count,
            glance: _,
        } = self;
        (board, kept.into_inner(), graph, count)
    }

    // Takes the lock.
    pub(crate) fn locked<R: Wait>(&self, rt: &R) -> MutexGuard<'_, Kept<J, D>> {
        for _ in 0..LOOKS {
            if let Some(kept) = self.kept.try_lock() {
                return kept;
            }
            yield_now();
        }
        self.kept.lock(rt)
    }

    /// Takes the lock for several calls.
    pub fn visit<R: Wait>(&self, rt: &R) -> Visit<'_, J, D> {
        Visit {
            hub: self,
            kept: self.locked(rt),
        }
    }

    /// Puts an item of the environment. The refusals are those of the core's `put_item`, in the state after what the pass
    /// has then seen.
    pub fn put_item<R: Wait>(
        &self,
        rt: &R,
        pass: &mut EnvPass<J>,
        addr: Addr,
        value: i64,
    ) -> Result<(), CoreError>
        ensures seen { Sees J.opening pass.old pass.new }
        ensures ok { OnOk result (Adds (EnvItem addr value ∷ []) pass.old pass.new) }
        ensures err { OnErr result (AddsNothing pass.old pass.new) }
        ensures refused { IfErr result (RefusesEvent J.opening pass.new (λ g X. RefusesItem g X addr) (EnvItem addr value)) }
    {
        let mut kept = self.locked(rt);
        let answer = kept.put_item(&self.board, pass, addr, value);
        self.note(&kept);
        answer
    }

    /// Puts a tag of the environment. The refusals are those of the core's `put_tag`, in the state after what the pass
    /// has then seen.
    pub fn put_tag<R: Wait>(&self, rt: &R, pass: &mut EnvPass<J>, tag: Tag) -> Result<(), CoreError>
        ensures seen { Sees J.opening pass.old pass.new }
        ensures ok { OnOk result (Adds (EnvTag tag ∷ []) pass.old pass.new) }
        ensures err { OnErr result (AddsNothing pass.old pass.new) }
        ensures refused { IfErr result (RefusesEvent J.opening pass.new (λ g X. RefusesTag g X tag) (EnvTag tag)) }
    {
        let mut kept = self.locked(rt);
        let answer = kept.put_tag(&self.board, pass, tag);
        self.note(&kept);
        answer
    }

    /// The value at an address, as the environment gets it, in the state after what the pass has then seen.
    pub fn get<R: Wait>(
        &self,
        rt: &R,
        pass: &mut EnvPass<J>,
        addr: Addr,
    ) -> Result<Option<i64>, CoreError>
        ensures seen { Sees J.opening pass.old pass.new × AddsNothing pass.old pass.new }
        ensures allowed { OnOk result (EnvironmentMayGet J.opening.graph addr) }
        ensures value { IfOk result (IsValueAt (facts_behind J.opening pass.new.seen) addr) }
        ensures refused { IfErr result (RefusesQuestion (RefusesGet J.opening.graph addr)) }
    {
        self.locked(rt).get(&self.board, pass, addr)
    }

    /// A watch on the item at an address, for whoever may get it. The refusals are those of `get`; where it may be watched,
    /// memory may be refused too.
    ///
    /// The watch takes no lock, and may outlive the hub. It is filled when the item comes, or at once if the item is there:
    /// that is tested, and no clause says it.
    pub fn watch<R: Wait>(
        &self,
        rt: &R,
        alloc: Global,
        pass: &mut EnvPass<J>,
        addr: Addr,
    ) -> Result<Watch, CoreError>
        ensures seen { Sees J.opening pass.old pass.new × AddsNothing pass.old pass.new }
        ensures allowed { OnOk result (EnvironmentMayGet J.opening.graph addr) }
        ensures fresh { IfOk result (λ watch. watch ≡ None) }
        ensures refused { IfErr result (RefusesWatch (EnvironmentMayGet J.opening.graph addr) (RefusesGet J.opening.graph addr)) }
    {
        let made = Watch::pair(alloc);
        self.locked(rt).watch(&self.board, pass, addr, made)
    }

    /// The value at an address, as a step reads it, in the state after what the pass has then seen.
    pub fn read<R: Wait>(
        &self,
        rt: &R,
        pass: &mut WorkPass<J>,
        addr: Addr,
    ) -> Result<Option<i64>, CoreError>
        ensures seen { Sees J.opening pass.old pass.new × AddsNothing pass.old pass.new }
        ensures allowed { OnOk result (AddressIsOf J.opening.graph addr) }
        ensures value { IfOk result (IsValueAt (facts_behind J.opening pass.new.seen) addr) }
        ensures refused { IfErr result (RefusesQuestion (RefusesRead J.opening.graph addr)) }
    {
        self.locked(rt).read(&self.board, pass, addr)
    }

    /// Lets one of the ready instances run, by its number among them, as the core's `claim` does.
    pub fn claim<R: Wait>(
        &self,
        rt: &R,
        pass: &mut WorkPass<J>,
        at: usize,
    ) -> Result<Option<Task>, CoreError>
        ensures seen { Sees J.opening pass.old pass.new × AddsNothing pass.old pass.new }
        ensures claimed { IfOk result (λ claimed. IfSome claimed (MayRun J.opening pass.new)) }
        ensures refused { IfErr result SaysHalted }
    {
        let mut kept = self.locked(rt);
        let claimed = kept.claim(&self.board, pass, at);
        self.note(&kept);
        claimed
    }

    /// Claims up to `most` of the ready instances one after another, and adds their tasks to these. It claims no more than the number of ready ones
    /// divided by the number of passes, so that others find some too, but at least one if there is one. `Ok` says whether an instance runs then; no
    /// clause says which it returns. If there is no memory for a task, its instance is ready again; the tasks before it were added.
    pub fn claim_some<R: Wait>(
        &self,
        rt: &R,
        pass: &mut WorkPass<J>,
        tasks: &mut Tasks,
        most: usize,
    ) -> Result<bool, CoreError>
        ensures seen { Sees J.opening pass.old pass.new × AddsNothing pass.old pass.new }
        ensures claimed { AddsClaimed J.opening pass.new most tasks.old tasks.new }
        ensures refused { IfErr result RefusesClaims }
    {
        let mut kept = self.locked(rt);
        let answer = kept.claim_some(&self.board, pass, tasks, most, self.count);
        self.note(&kept);
        answer
    }

    /// Lets an instance wait for the item that its body asks for, unless the item is there by now.
    ///
    /// The result must be of the task's instance and of the body of its step in this graph, and each item that it read
    /// must be in the state that the pass knew.
    pub fn park<R: Wait>(
        &self,
        rt: &R,
        pass: &mut WorkPass<J>,
        task: Task,
        parked: &Parked<'_>,
    ) -> Result<(), TaskError>
        requires { IsParkedIn J.opening.graph (facts_behind J.opening pass.old.seen) task parked.now }
        ensures seen { Sees J.opening pass.old pass.new × AddsNothing pass.old pass.new }
        ensures refused { RefusesTask task (RefusesWait J.opening pass.new parked.now.address) result }
    {
        let mut kept = self.locked(rt);
        let answer = kept.park(&self.board, pass, task, parked);
        self.note(&kept);
        answer
    }

    /// Gives the instance of a task back: it is ready.
    pub fn release<R: Wait>(
        &self,
        rt: &R,
        pass: &mut WorkPass<J>,
        task: Task,
    ) -> Result<(), TaskError>
        ensures seen { Sees J.opening pass.old pass.new × AddsNothing pass.old pass.new }
        ensures foreign { OnTask result (λ back. back ≡ task) (λ answer. answer ≡ Ok tt) }
    {
        let mut kept = self.locked(rt);
        let answer = kept.release(&self.board, pass, task);
        self.note(&kept);
        answer
    }

    /// Commits what the body of an instance came to: the instance is done, with its puts, or at fault.
    ///
    /// The outcome must be of the task's instance and of the body of its step in this graph, and each item that it read
    /// must be in the state that the pass knew.
    pub fn finish<R: Wait>(
        &self,
        rt: &R,
        pass: &mut WorkPass<J>,
        task: Task,
        outcome: Outcome<'_>,
    ) -> Result<Committed, TaskError>
        requires { IsOutcomeIn J.opening.graph (facts_behind J.opening pass.old.seen) task outcome }
        ensures seen { Sees J.opening pass.old pass.new }
        ensures ok { IfOk result (AddsEnd task outcome.entry pass.old pass.new) }
        ensures err { OnErr result (AddsNothing pass.old pass.new) }
        ensures refused { RefusesTask task (RefusesEndOf J.opening pass.new task outcome.entry) result }
    {
        let mut kept = self.locked(rt);
        let answer = kept.finish(&self.board, pass, task, outcome);
        self.note(&kept);
        self.glance.note_batch();
        answer
    }

    /// Commits what the bodies of several instances came to, as one: all of it, or all of it up to the first fault. The
    /// instances behind a fault are ready again, and so are all of them at an error of the core.
    ///
    /// Each outcome must be of its task's instance and of the body of its step in this graph, and each item that it read
    /// must be in the state that the pass knew, or be put by an outcome before it.
    ///
    /// Several batches are committed with one visit of the lock by `visit`.
    pub fn finish_all<'a, R: Wait>(
        &self,
        rt: &R,
        pass: &mut WorkPass<J>,
        batch: Batch<'a>,
    ) -> Result<Ended, BatchError<'a>>
        requires { HaveOutcomes J.opening.graph (facts_behind J.opening pass.old.seen) batch.tasks batch.outcomes }
        ensures seen { Sees J.opening pass.old pass.new }
        ensures ok { IfOk result (AddsTogether J.opening (ends_said batch.entry) pass.old pass.new) }
        ensures err { OnErr result (AddsNothing pass.old pass.new) }
        ensures refused { RefusesBatch batch.entry (RefusesTogether J.opening pass.new (ends_said batch.entry)) result }
    {
        self.visit(rt).finish_all(pass, batch)
    }

    /// Whether an instance runs, or may be claimed. No clause says which it returns.
    pub fn busy<R: Wait>(&self, rt: &R, pass: &mut WorkPass<J>) -> bool
        ensures { Sees J.opening pass.old pass.new × AddsNothing pass.old pass.new }
    {
        self.locked(rt).busy(&self.board, pass)
    }

    // Notes what is ready and what runs, before the lock is left.
    pub(crate) fn note(&self, kept: &Kept<J, D>) {
        self.glance.note(kept.core.ready(), kept.core.running());
    }

    /// How many instances were ready when the lock was last left. It waits for nobody, and no clause says it: it is for whoever shares out the work. So are `running` and
    /// `batches`.
    pub fn ready(&self) -> usize {
        self.glance.ready()
    }

    /// How many instances ran when the lock was last left.
    pub fn running(&self) -> usize {
        self.glance.running()
    }

    /// How often outcomes were given to `finish` and `finish_all`.
    pub fn batches(&self) -> usize {
        self.glance.batches()
    }

    /// Lets the worker with this number lead, unless one leads; says whether it does now. At most one worker leads at a time: for workers that agree that one of them alone does a certain work.
    /// It waits for nobody, and no clause says anything of it.
    pub fn lead(&self, number: usize) -> bool {
        self.glance.lead(number)
    }

    /// Lets the worker with this number lead, and no other.
    pub fn take_lead(&self, number: usize) {
        self.glance.take_lead(number);
    }

    /// If the worker with this number leads, none does from now on.
    pub fn end_lead(&self, number: usize) {
        self.glance.end_lead(number);
    }

    /// Sleeps until no worker leads, or for this many milliseconds.
    pub fn nap<R: Wait>(&self, rt: &R, millis: u64) {
        self.glance.nap(rt, millis);
    }

    /// Sleeps for this many milliseconds, or until the lead changes or `wake` is called.
    pub fn rest<R: Wait>(&self, rt: &R, millis: u64) {
        self.glance.rest(rt, millis);
    }

    /// Wakes the workers that nap or rest.
    pub fn wake(&self) {
        self.glance.wake();
    }

    /// The graph; bodies of it are run outside the lock.
    pub fn graph(&self) -> &Graph
        ensures { result.now ≡ J.opening.graph }
    {
        &self.graph
    }

    /// The number of events in the history, as far as it is told: no less than before, and no less than the number of events
    /// that the pass has seen. It waits for nobody, and takes no memory.
    pub fn commits<K: Kind>(&self, pass: &mut Pass<J, K>) -> u64
        ensures pass { pass.new ≡ told_of result pass.old }
        ensures count { IsCountFor result pass.old }
    {
        self.board.commits(pass)
    }

    /// Asks all threads to stop. It waits for nobody, and takes no memory.
    pub fn ask_stop<K: Kind>(&self, pass: &mut Pass<J, K>)
        ensures { pass.new ≡ asked_of pass.old }
    {
        self.board.ask_stop(pass);
    }

    /// Whether a stop was asked. It waits for nobody, and takes no memory.
    pub fn stop_asked<K: Kind>(&self, pass: &mut Pass<J, K>) -> bool
        ensures pass { pass.new ≡ heard_of result pass.old }
        ensures asked { pass.old.asked ≡ true → result ≡ true }
        ensures heard { pass.old.heard ≡ true → result ≡ true }
    {
        self.board.stop_asked(pass)
    }
}
