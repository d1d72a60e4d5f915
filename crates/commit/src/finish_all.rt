//! Several ends of instances, committed as one.
ghost use Rattle.std.specs.Prelude.{◌≡◌, ◌≤◌, cond, drop, length};
ghost use Rattle.commit.specs.declared.events.Events.TheVariants.{Several};
ghost use Rattle.machine.specs.Group.{StopsAt, cut, stopped_as as as_stopped, LeavesWhatComes};

use crate::events::Events;
use crate::{Batch, Core, CoreError};
use disk::Disk;
use instances::{Tasks, runs_are_counted};
use machine::{Ended, cut_in_turn, fit_in_turn, results_are_meant, taken_in_turn};
use terms::{Event, FaultKind};
use vault::{VaultError, stores_go_on};

impl<D: Disk> Core<D> {
    ghost use Rattle.std.specs.Prelude.{◌≡◌, ◌≤◌, false, IsTrue, Err, IfErr, IfOk, OnErr, OnOk, length};
    ghost use Rattle.graph.specs.Fits.{HasNoFault};
    ghost use Rattle.vault.specs.declared.error.VaultError.TheVariants.{NoMemory};
    ghost use Rattle.commit.specs.declared.error.CoreError.TheVariants.{Store};
    ghost use Rattle.machine.specs.Group.{AreEndsHere, AreRunning, EndsTogether, ended_by, puts_of_all};
    ghost use Rattle.machine.specs.Machine.{HasRoom, TellsWhether};
    ghost use Rattle.machine.specs.State.{AreLegalFrom};
    ghost use Rattle.commit.specs.Core.{facts, graph, is_halted};
    ghost use Rattle.commit.specs.Batch.{AreOutcomesOf, EndTheFirst, EndsAll, GivesBackAll, RefusesAllFirst, RefusesEndsAs, TakesAll, ends_said};
    ghost use Rattle.commit.specs.Calls.{CrashLeaves, HaltsInDoubt};
    ghost use Rattle.commit.specs.Room.{AreDue, GivesRoom};

    /// Commits what the bodies of several instances came to, as one commit: a crash leaves all of it, or nothing. Each end comes after those
    /// before it. The first one that is at fault, by its body or by a double put, ends the commit and stops the store; the instances after it are
    /// ready again. The answer says how far the commit goes.
    ///
    /// Each outcome must be of its task's instance, of which none is there twice, and of the body of its step in this graph, and the items that
    /// it read must be items of this core. The causes of a refusal, in their order: `Halted`; a fault stopped the store; `Full`. If the
    /// ends are refused, all of the instances are ready.
    pub fn finish_all(&mut self, batch: Batch<'_>) -> Result<Ended, CoreError>
        requires { AreOutcomesOf self.old batch }
        ensures { EndsAll D.Disk self.old self.new batch.entry.tasks (ends_said batch.entry) result }
    {
        results_are_meant();
        let (tasks, ends) = batch.into_ends();
        self.end_all(tasks, ends)
    }

    // Commits these ends of the instances of the tasks.
    fn end_all(&mut self, tasks: Tasks, ends: Vec<Event>) -> Result<Ended, CoreError>
        requires here { AreEndsHere self.old.machine ends.items }
        requires ended { ended_by ends.items ≡ tasks }
        requires some { 1 ≤ length ends.items }
        ensures { EndsAll D.Disk self.old self.new tasks ends.items result }
    {
        stores_go_on::<D>();
        cut_in_turn();
        taken_in_turn();
        self.is_kept();
        let mut ends = ends;
        match self.make_ready_for_ends(&mut ends) {
            Ok(ended) => {
                let answer = self.commit_ends(tasks, ends, ended);
                self.is_kept();
                answer
            }
            Err(error) => {
                self.release_all(tasks);
                self.is_kept();
                Err(error)
            }
        }
    }

    // Looks how far these ends come together, leaves just what comes, and makes room for it.
    fn make_ready_for_ends(&mut self, ends: &mut Vec<Event>) -> Result<Ended, CoreError>
        requires here { AreEndsHere self.old.machine ends.old.items }
        ensures working { OnOk result (is_halted self.old ≡ false) }
        ensures together { IfOk result (LeavesWhatComes (graph self.old) (facts self.old) ends.old.items ends.new.items) }
        ensures room { OnOk result (HasRoom self.new.machine (puts_of_all ends.new.items)) }
        ensures refused { IfErr result (RefusesAllFirst self.old) }
        ensures same { GivesRoom self.old self.new }
    {
        match self.look_at_ends(ends) {
            Ok(ended) => {
                cut_ends(ends, ended);
                match self.make_room_for_ends(ends) {
                    Ok(()) => Ok(ended),
                    Err(error) => Err(error),
                }
            }
            Err(error) => Err(error),
        }
    }

    // Looks how far these ends come together.
    fn look_at_ends(&mut self, ends: &[Event]) -> Result<Ended, CoreError>
        requires here { AreEndsHere self.old.machine ends.now }
        ensures working { OnOk result ((is_halted self.old ≡ false) × HasNoFault (facts self.old)) }
        ensures together { IfOk result (EndsTogether (graph self.old) (facts self.old) ends.now) }
        ensures refused { IfErr result (RefusesAllFirst self.old) }
        ensures same { self.new ≡ self.old }
    {
        if self.vault.is_halted() {
            return Err(CoreError::Store(VaultError::Halted));
        }
        match self.machine.may_end_any() {
            Ok(()) => match self.machine.look_at_ends(ends) {
                Ok(ended) => Ok(ended),
                Err(_) => Err(CoreError::Store(VaultError::NoMemory)),
            },
            Err(refusal) => Err(CoreError::Refused(refusal)),
        }
    }

    /// Makes room for all the puts of these ends, or for these puts of the environment.
    pub(crate) fn make_room_for_ends(&mut self, ends: &[Event]) -> Result<(), CoreError>
        requires { AreLegalFrom (graph self.old) (facts self.old) ends.now }
        ensures ok { OnOk result (HasRoom self.new.machine (puts_of_all ends.now)) }
        ensures err { OnErr result (result ≡ Err (Store NoMemory)) }
        ensures same { GivesRoom self.old self.new }
    {
        fit_in_turn();
        runs_are_counted();
        self.machine.is_kept();
        match self.machine.make_room_for_ends(ends) {
            Ok(()) => Ok(()),
            Err(_) => Err(CoreError::Store(VaultError::NoMemory)),
        }
    }

    /// Whether each of these instances runs here, and none is among them twice.
    pub fn runs_all(&self, tasks: &Tasks) -> bool
        ensures { TellsWhether result (AreRunning self.now.machine tasks.now) }
    {
        self.machine.runs_all(tasks)
    }

    // Commits these ends of the first of the tasks, which must be due; the answer is the one that is given. If they are refused, all of
    // the instances are ready; otherwise those that did not end are.
    fn commit_ends(
        &mut self,
        tasks: Tasks,
        ends: Vec<Event>,
        ended: Ended,
    ) -> Result<Ended, CoreError>
        requires tasks { EndTheFirst self.old tasks ends.items }
        requires due { AreDue self.old ends.items }
        ensures ok { IfOk result (λ answer. (answer ≡ ended) × TakesAll self.old self.new tasks ends.items) }
        ensures err { OnErr result (GivesBackAll self.old self.new tasks) }
        ensures refused { RefusesEndsAs self.old ends.items result }
        ensures halts { HaltsInDoubt D.Disk self.old self.new ends.items result }
        ensures moments { IsTrue D.is_honest → CrashLeaves D.Disk self.old self.new ends.items }
        ensures within { OnErr result (length tasks ≤ self.old.allowance) }
    {
        fit_in_turn();
        taken_in_turn();
        stores_go_on::<D>();
        self.machine.is_kept();
        let count = ends.len() as u64;
        match self.vault.append_all(&ends) {
            Ok(()) => {
                let mut tasks = tasks;
                self.machine.take_ends(&mut tasks, &ends);
                self.machine.release_all(tasks);
                keep_latest(&mut self.latest, ends);
                self.allowance -= count;
                Ok(ended)
            }
            Err(error) => {
                self.machine.release_all(tasks);
                keep_in_doubt(&mut self.in_doubt, self.vault.is_halted(), ends);
                Err(CoreError::Store(error))
            }
        }
    }

    /// Gives the instances of these tasks back: each is ready.
    fn release_all(&mut self, tasks: Tasks)
        requires { AreRunning self.old.machine tasks }
        ensures back { GivesBackAll self.old self.new tasks }
        ensures vault { self.new.vault ≡ self.old.vault }
        ensures in_doubt { self.new.in_doubt ≡ self.old.in_doubt }
    {
        self.machine.release_all(tasks);
    }
}

// Leaves of these ends what comes: the first ones as they are, and then perhaps one as a fault.
fn cut_ends(ends: &mut Vec<Event>, ended: Ended)
    requires within { ended.done ≤ length ends.old.items }
    requires stops { StopsAt ended.stopped (drop ended.done ends.old.items) }
    ensures { ends.new.items ≡ cut ended ends.old.items }
{
    if let Some(kind) = ended.stopped {
        let stopped = stopped_as(&ends[ended.done], kind);
        ends.truncate(ended.done);
        ends.push_reserved(stopped);
    }
}

// The end, as a fault of this kind.
fn stopped_as(end: &Event, kind: FaultKind) -> Event
    ensures { result ≡ as_stopped kind end.now }
{
    match end {
        Event::Done(instance, _) | Event::Stopped(instance, _) => Event::Stopped(*instance, kind),
        Event::EnvItem(address, value) => Event::EnvItem(*address, *value),
        Event::EnvTag(tag) => Event::EnvTag(*tag),
    }
}

/// Keeps the events of an append that returned an error, if the error halted the vault.
pub(crate) fn keep_in_doubt(in_doubt: &mut Events, halted: bool, events: Vec<Event>)
    ensures { in_doubt.new ≡ cond halted (Several events) in_doubt.old }
{
    if halted {
        *in_doubt = Events::Several(events);
    }
}

/// Keeps the events of a commit as the latest.
pub(crate) fn keep_latest(latest: &mut Events, events: Vec<Event>)
    ensures { latest.new ≡ Several events }
{
    *latest = Events::Several(events);
}
