ghost use Rattle.std.specs.Prelude.{◌≡◌, None, IfOk};

use crate::visits::{record_end, record_item, record_tag};
use crate::{EnvPass, TaskError, WorkPass};
use cells::{Filler, Fillers, Watch};
use commit::{Committed, Core, CoreError, Outcome};
use disk::Disk;
use instances::{Numbers, Task};
use machine::results_are_meant;
use passes::{Board, Desk, Naming};
use std::alloc::AllocError;
use std::marker::{Brand, Model};
use std::snapshot::Snapshot;
use steplang::Parked;
use terms::{Addr, Tag, facts_are_told_apart, facts_go_on};
use vault::{VaultError, stores_go_on};

/// What the lock of a hub keeps: the core, the keeper's seat, and what fills the watches. A contract sees the history and
/// the core.
///
/// Between two calls the core has the state after the history. On an honest disk, and unless a turnover had halted the
/// core before the hub was opened, a crash leaves that state, or, once the core is halted, perhaps the state with the
/// commit in doubt; if the core was halted before, a crash leaves what one might have left then (`is_kept`).
pub struct Kept<J: Naming, D: Disk> {
    pub(crate) core: Core<D>,
    pub(crate) desk: Desk<J>,
    pub(crate) fillers: Fillers,
    // The numbers of its tickets.
    pub(crate) numbers: Numbers,
}

impl<J: Naming, D: Disk + Drop> Drop for Kept<J, D> {
    // By hand, so that dropping it is one call, wherever it is dropped.
    fn drop(self) {
        let Kept {
            core: _,
            desk: _,
            fillers: _,
            numbers: _,
        } = self;
    }
}

impl<J: Naming, D: Disk> Model for Kept<J, D> {
    ghost use Rattle.std.specs.Prelude.{IsTrue};
    ghost use Rattle.std.specs.Coded.{codes};
    ghost use Rattle.machine.specs.contracts.machine.Machine as of_machine;
    ghost use Rattle.hub.specs.Kept.{Kept as Seen, HasRun, IsKept};

    ghost Value = { Seen D };

    ghost coded = { Prim.hlevel (codes, of_machine.the_row.coded) };

    ghost view = { λ k. record { history = k.desk.book.history; core = k.core } };

    ghost invariant = { λ k. IsKept (HasRun D.Disk J.opening J.left J.envs) J.opening J.passes k.desk k.core };
}

impl<J: Naming, D: Disk> Kept<J, D> {
    ghost use Rattle.std.specs.Prelude.{◌≡◌, ◌↔◌, true, false, [], ◌∷◌, None, Ok, OnErr, OnOk, IfErr, IsErrOf, IfOk, IfSome, IsTrue};
    ghost use Rattle.commit.specs.declared.error.CoreError.TheVariants.{Store};
    ghost use Rattle.vault.specs.declared.error.VaultError.TheVariants.{Halted};
    ghost use Rattle.terms.specs.declared.event.Event.TheVariants.{EnvItem, EnvTag};
    ghost use Rattle.machine.specs.Machine.{IsValueAt, RefusesItem, RefusesTag, RefusesGet, RefusesRead};
    ghost use Rattle.graph.specs.Fits.{AddressIsOf};
    ghost use Rattle.graph.specs.Graph.{EnvironmentMayGet};
    ghost use Rattle.commit.specs.Core.{graph, is_halted};
    ghost use Rattle.passes.specs.Known.{commits};
    ghost use Rattle.passes.specs.Visits.{Shows, Writes};
    ghost use Rattle.hub.specs.Opening.{AreLegalBehind, IsBehind, WasTurned, facts_behind};
    ghost use Rattle.hub.specs.Kept.{CrashLeavesHistory, HasRun, IsBusy, IsKept, LeavesAsOpened};
    ghost use Rattle.hub.specs.Ends.{AddsEnd, WritesEnd};
    ghost use Rattle.hub.specs.Replies.{Adds, AddsNoCommit, AddsNothing, MayRun, RefusesEvent, RefusesQuestion, RefusesWait, RefusesWatch, SaysHalted, Sees};
    ghost use Rattle.hub.specs.Tasks.{CallsWith, RefusesEndOf, RefusesTask};
    ghost use Rattle.instances.specs.declared.state.State.TheVariants.{Ready};
    ghost use Rattle.commit.specs.Calls.{PutsItem, PutsTag};
    ghost use Rattle.commit.specs.Gets.{Gets};
    ghost use Rattle.commit.specs.Runs.{Ends};
    ghost use Rattle.commit.specs.Came.{IsOutcomeIn, IsParkedIn};
    ghost use Rattle.commit.specs.Steps.{Claims, Moves, Parks};

    // Takes it apart.
    pub(crate) fn into_parts(self) -> (Core<D>, Desk<J>)
        ensures core { result.0 ≡ self.core }
        ensures book { result.1.book.history ≡ self.history }
        ensures kept { IsKept (HasRun D.Disk J.opening J.left J.envs) J.opening J.passes result.1 result.0 }
    {
        let Kept {
            core,
            desk,
            fillers: _,
            numbers: _,
        } = self;
        (core, desk)
    }

    /// A law, with nothing to run: what it keeps from call to call.
    pub fn is_kept(&self)
        ensures behind { IsBehind J.opening (commits self.now.history) self.now.core }
        ensures legal { AreLegalBehind J.opening (commits self.now.history) }
        ensures crash { IsTrue D.is_honest → (WasTurned J.opening → ⊥) → CrashLeavesHistory D.files J.opening self.now }
        ensures rests { IsTrue D.is_honest → LeavesAsOpened D.files J.opening J.left self.now }
        ensures settled { is_halted self.now.core ≡ false → self.now.core.in_doubt ≡ [] }
    {
        self.core.is_kept();
    }

    /// As the core's `put_item`. At `Ok` the item is made with the pass.
    pub fn put_item(
        &mut self,
        board: &Board<J>,
        pass: &mut EnvPass<J>,
        addr: Addr,
        value: i64,
    ) -> Result<(), CoreError>
        ensures core { PutsItem D.Disk self.old.core self.new.core addr value result }
        ensures history { OnOk result (Writes (EnvItem addr value ∷ []) self.old.history self.new.history pass.old pass.new) }
        ensures seen { Sees J.opening pass.old pass.new }
        ensures ok { OnOk result (Adds (EnvItem addr value ∷ []) pass.old pass.new) }
        ensures err { OnErr result (AddsNoCommit self.old self.new pass.old pass.new) }
        ensures refused { IfErr result (RefusesEvent J.opening pass.new (λ g X. RefusesItem g X addr) (EnvItem addr value)) }
    {
        facts_are_told_apart();
        facts_go_on();
        stores_go_on::<D>();
        // What is known of every pass: it has a place among those of its table.
        pass.number();
        let place = addr;
        match self.core.put_item(place, value) {
            Ok(()) => {
                record_item::<J, Brand>(board, &mut self.desk, pass, addr, value);
                self.fillers.fill_all(self.core.last_commit());
                Ok(())
            }
            Err(error) => {
                board.show(&mut self.desk, pass);
                Err(error)
            }
        }
    }

    /// As the core's `put_tag`. At `Ok` the tag is put with the pass.
    pub fn put_tag(
        &mut self,
        board: &Board<J>,
        pass: &mut EnvPass<J>,
        tag: Tag,
    ) -> Result<(), CoreError>
        ensures core { PutsTag D.Disk self.old.core self.new.core tag result }
        ensures history { OnOk result (Writes (EnvTag tag ∷ []) self.old.history self.new.history pass.old pass.new) }
        ensures seen { Sees J.opening pass.old pass.new }
        ensures ok { OnOk result (Adds (EnvTag tag ∷ []) pass.old pass.new) }
        ensures err { OnErr result (AddsNoCommit self.old self.new pass.old pass.new) }
        ensures refused { IfErr result (RefusesEvent J.opening pass.new (λ g X. RefusesTag g X tag) (EnvTag tag)) }
    {
        facts_are_told_apart();
        facts_go_on();
        stores_go_on::<D>();
        // What is known of every pass: it has a place among those of its table.
        pass.number();
        let name = tag;
        match self.core.put_tag(name) {
            Ok(()) => {
                record_tag::<J, Brand>(board, &mut self.desk, pass, tag);
                Ok(())
            }
            Err(error) => {
                board.show(&mut self.desk, pass);
                Err(error)
            }
        }
    }

    /// As the core's `get`.
    pub fn get(
        &mut self,
        board: &Board<J>,
        pass: &mut EnvPass<J>,
        addr: Addr,
    ) -> Result<Option<i64>, CoreError>
        ensures same { (self.new ≡ self.old) × Shows self.old.history pass.old pass.new }
        ensures core { Gets self.old.core (EnvironmentMayGet (graph self.old.core) addr) (RefusesGet (graph self.old.core) addr) addr result }
        ensures seen { Sees J.opening pass.old pass.new × AddsNothing pass.old pass.new }
        ensures allowed { OnOk result (EnvironmentMayGet J.opening.graph addr) }
        ensures value { IfOk result (IsValueAt (facts_behind J.opening pass.new.seen) addr) }
        ensures refused { IfErr result (RefusesQuestion (RefusesGet J.opening.graph addr)) }
    {
        let answer = self.core.get(addr);
        board.show(&mut self.desk, pass);
        answer
    }

    /// The watch that was made, on the item at this address, for whoever may get it. If the item is there, the watch has its
    /// value.
    pub fn watch(
        &mut self,
        board: &Board<J>,
        pass: &mut EnvPass<J>,
        addr: Addr,
        made: Result<(Watch, Filler), AllocError>,
    ) -> Result<Watch, CoreError>
        requires { IfOk made (λ both. both.0 ≡ None) }
        ensures same { (self.new ≡ self.old) × Shows self.old.history pass.old pass.new }
        ensures seen { Sees J.opening pass.old pass.new × AddsNothing pass.old pass.new }
        ensures allowed { OnOk result (EnvironmentMayGet J.opening.graph addr) }
        ensures fresh { IfOk result (λ watch. watch ≡ None) }
        ensures halted { IsErrOf result (Store Halted) ↔ (is_halted self.old.core ≡ true) }
        ensures refused { IfErr result (RefusesWatch (EnvironmentMayGet J.opening.graph addr) (RefusesGet J.opening.graph addr)) }
    {
        board.show(&mut self.desk, pass);
        let place = addr;
        match self.core.get(place) {
            Ok(value) => match watch_at(&mut self.fillers, addr, value, made) {
                Ok(watch) => Ok(watch),
                Err(_) => Err(CoreError::Store(VaultError::NoMemory)),
            },
            Err(error) => Err(error),
        }
    }

    /// As the core's `read`.
    pub fn read(
        &mut self,
        board: &Board<J>,
        pass: &mut WorkPass<J>,
        addr: Addr,
    ) -> Result<Option<i64>, CoreError>
        ensures same { (self.new ≡ self.old) × Shows self.old.history pass.old pass.new }
        ensures core { Gets self.old.core (AddressIsOf (graph self.old.core) addr) (RefusesRead (graph self.old.core) addr) addr result }
        ensures seen { Sees J.opening pass.old pass.new × AddsNothing pass.old pass.new }
        ensures allowed { OnOk result (AddressIsOf J.opening.graph addr) }
        ensures value { IfOk result (IsValueAt (facts_behind J.opening pass.new.seen) addr) }
        ensures refused { IfErr result (RefusesQuestion (RefusesRead J.opening.graph addr)) }
    {
        let answer = self.core.read(addr);
        board.show(&mut self.desk, pass);
        answer
    }

    /// As the core's `claim`. The instance is prescribed and not done in the state after what the pass has then seen.
    pub fn claim(
        &mut self,
        board: &Board<J>,
        pass: &mut WorkPass<J>,
        at: usize,
    ) -> Result<Option<Task>, CoreError>
        ensures core { Claims self.old.core self.new.core at result }
        ensures history { (self.new.history ≡ self.old.history) × Shows self.old.history pass.old pass.new }
        ensures seen { Sees J.opening pass.old pass.new × AddsNothing pass.old pass.new }
        ensures claimed { IfOk result (λ claimed. IfSome claimed (MayRun J.opening pass.new)) }
        ensures refused { IfErr result SaysHalted }
    {
        self.core.is_kept();
        let claimed = self.core.claim(at);
        board.show(&mut self.desk, pass);
        claimed
    }

    /// As the core's `park`, for a result whose reads the pass has seen.
    pub fn park(
        &mut self,
        board: &Board<J>,
        pass: &mut WorkPass<J>,
        task: Task,
        parked: &Parked<'_>,
    ) -> Result<(), TaskError>
        requires { IsParkedIn J.opening.graph (facts_behind J.opening pass.old.seen) task parked.now }
        ensures core { CallsWith self.old self.new task (Parks self.old.core self.new.core task parked.now.address) result }
        ensures history { (self.new.history ≡ self.old.history) × Shows self.old.history pass.old pass.new }
        ensures seen { Sees J.opening pass.old pass.new × AddsNothing pass.old pass.new }
        ensures refused { RefusesTask task (RefusesWait J.opening pass.new parked.now.address) result }
    {
        facts_are_told_apart();
        facts_go_on();
        results_are_meant();
        board.show(&mut self.desk, pass);
        if !self.core.runs(&task) {
            return Err(TaskError::Foreign(task));
        }
        if let Err(error) = self.core.park(task, parked) {
            return Err(TaskError::Refused(error));
        }
        Ok(())
    }

    /// As the core's `release`.
    pub fn release(
        &mut self,
        board: &Board<J>,
        pass: &mut WorkPass<J>,
        task: Task,
    ) -> Result<(), TaskError>
        ensures core { CallsWith self.old self.new task (λ answer. (answer ≡ Ok tt) × Moves self.old.core self.new.core task Ready) result }
        ensures history { (self.new.history ≡ self.old.history) × Shows self.old.history pass.old pass.new }
        ensures seen { Sees J.opening pass.old pass.new × AddsNothing pass.old pass.new }
    {
        board.show(&mut self.desk, pass);
        if !self.core.runs(&task) {
            return Err(TaskError::Foreign(task));
        }
        self.core.release(task);
        Ok(())
    }

    /// As the core's `finish`, for an outcome whose reads the pass has seen. At `Ok` the end of the instance is made with
    /// the pass.
    pub fn finish(
        &mut self,
        board: &Board<J>,
        pass: &mut WorkPass<J>,
        task: Task,
        outcome: Outcome<'_>,
    ) -> Result<Committed, TaskError>
        requires { IsOutcomeIn J.opening.graph (facts_behind J.opening pass.old.seen) task outcome }
        ensures core { CallsWith self.old self.new task (Ends D.Disk self.old.core self.new.core task outcome.entry) result }
        ensures history { IfOk result (WritesEnd task outcome.entry self.old.history self.new.history pass.old pass.new) }
        ensures seen { Sees J.opening pass.old pass.new }
        ensures ok { IfOk result (AddsEnd task outcome.entry pass.old pass.new) }
        ensures err { OnErr result (AddsNoCommit self.old self.new pass.old pass.new) }
        ensures refused { RefusesTask task (RefusesEndOf J.opening pass.new task outcome.entry) result }
    {
        facts_are_told_apart();
        facts_go_on();
        results_are_meant();
        stores_go_on::<D>();
        self.core.is_kept();
        board.show(&mut self.desk, pass);
        if !self.core.runs(&task) {
            return Err(TaskError::Foreign(task));
        }
        let instance = task.inst();
        let said = Snapshot::of(&outcome);
        let committed = match self.core.finish(task, outcome) {
            Ok(committed) => committed,
            Err(error) => return Err(TaskError::Refused(error)),
        };
        record_end::<J, Brand>(board, &mut self.desk, pass, committed, instance, &said);
        self.fillers.fill_all(self.core.last_commit());
        Ok(committed)
    }

    /// Whether an instance runs, or may be claimed.
    pub fn busy(&mut self, board: &Board<J>, pass: &mut WorkPass<J>) -> bool
        ensures says { (result ≡ true) ↔ IsBusy self.old.core }
        ensures core { self.new.core ≡ self.old.core }
        ensures history { (self.new.history ≡ self.old.history) × Shows self.old.history pass.old pass.new }
        ensures seen { Sees J.opening pass.old pass.new × AddsNothing pass.old pass.new }
    {
        board.show(&mut self.desk, pass);
        self.core.running() != 0 || self.core.may_claim()
    }
}

// The watch that was made, on the item at this address, which has this value, or is not there yet.
fn watch_at(
    fillers: &mut Fillers,
    addr: Addr,
    value: Option<i64>,
    made: Result<(Watch, Filler), AllocError>,
) -> Result<Watch, AllocError>
    requires { IfOk made (λ both. both.0 ≡ None) }
    ensures { IfOk result (λ watch. watch ≡ None) }
{
    let (watch, filler) = made?;
    match value {
        Some(value) => filler.fill(value),
        None => fillers.keep(addr, filler)?,
    }
    Ok(watch)
}
