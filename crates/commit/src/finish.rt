use crate::{Committed, Core, CoreError, Outcome};
use disk::Disk;
use instances::{Task, runs_are_counted};
use machine::{End, given_are_of_graph, results_are_meant};
use terms::{Event, FaultKind, Put, Puts};
use vault::{VaultError, stores_go_on};

impl<D: Disk> Core<D> {
    ghost use Rattle.std.specs.Prelude.{◌≡◌, ◌≤◌, false, IsTrue, IfErr, IfOk, OnErr, OnOk, Some, Err, length};
    ghost use Rattle.std.specs.List.{AllByRecursion};
    ghost use Rattle.terms.specs.declared.event.Event.TheVariants.{Done, Stopped};
    ghost use Rattle.instances.specs.declared.state.State.TheVariants.{Ready, Running};
    ghost use Rattle.graph.specs.Fits.{PutIsOf};
    ghost use Rattle.machine.specs.Legal.{IsLegal};
    ghost use Rattle.machine.specs.Machine.{HasRoom, RefusesEnd};
    ghost use Rattle.machine.specs.Meaning.{BodyFaults, BodyGives};
    ghost use Rattle.vault.specs.declared.error.VaultError.TheVariants.{NoMemory};
    ghost use Rattle.commit.specs.declared.error.CoreError.TheVariants.{Refused, Store};
    ghost use Rattle.commit.specs.declared.outcome.Committed.TheVariants as committed;
    ghost use Rattle.commit.specs.Core.{facts, graph, is_halted, state_of};
    ghost use Rattle.commit.specs.Calls.{Commits, GivesBack, Halts, NoCause};
    ghost use Rattle.commit.specs.Outcome.{EndsGiven, IsOutcomeOf};
    ghost use Rattle.commit.specs.Room.{GivesRoom};
    ghost use Rattle.commit.specs.Runs.{Ends};
    ghost use Rattle.commit.specs.Steps.{Moves};

    /// Commits what the body of an instance came to. Either the instance is done, with its puts, or it is at fault, which
    /// stops the store. It is at fault if its body is; and by a double put, if one of its items is there already or is
    /// put twice.
    ///
    /// The outcome must be of the task's instance and of the body of its step in this graph, and the items that it read
    /// must be items of this core. The causes of a refusal, in their order: `Halted`; a fault stopped the store; `Full`.
    /// If it is refused the instance is ready.
    pub fn finish(&mut self, task: Task, outcome: Outcome<'_>) -> Result<Committed, CoreError>
        requires running { state_of self.old task ≡ Some Running }
        requires outcome { IsOutcomeOf self.old task outcome }
        ensures { Ends D.Disk self.old self.new task outcome.entry result }
    {
        results_are_meant();
        stores_go_on::<D>();
        runs_are_counted();
        self.is_kept();
        if self.vault.is_halted() {
            self.machine.release(task);
            return Err(CoreError::Store(VaultError::Halted));
        }
        match outcome {
            Outcome::Gave(given) => {
                let ended = self.end(task, given.into_puts());
                self.is_kept();
                ended
            }
            Outcome::Fault(bad) => {
                let ended = self.stop(task, bad.kind());
                self.is_kept();
                ended
            }
        }
    }

    // Commits the end of an instance whose body gave these puts.
    fn end(&mut self, task: Task, puts: Puts) -> Result<Committed, CoreError>
        requires running { state_of self.old task ≡ Some Running }
        requires working { is_halted self.old ≡ false }
        requires gives { BodyGives (graph self.old) (facts self.old) task puts }
        ensures ends { EndsGiven D.Disk self.old self.new task puts result }
        ensures err { OnErr result (GivesBack self.old self.new task) }
        ensures halts { Halts D.Disk self.old self.new result }
    {
        stores_go_on::<D>();
        self.is_kept();
        match self.machine.may_end(&task, puts.as_slice()) {
            Ok(End::Done) => self.commit_done(task, puts),
            Ok(End::DoublePut) => self.commit_fault(task, FaultKind::DoublePut),
            Err(refusal) => {
                self.release(task);
                Err(CoreError::Refused(refusal))
            }
        }
    }

    // Commits the fault of a body.
    fn stop(&mut self, task: Task, kind: FaultKind) -> Result<Committed, CoreError>
        requires running { state_of self.old task ≡ Some Running }
        requires working { is_halted self.old ≡ false }
        requires faults { BodyFaults (graph self.old) (facts self.old) task kind }
        ensures commits { Commits D.Disk self.old self.new (RefusesEnd (facts self.old)) (Stopped task kind) result }
        ensures told { IfOk result (λ told. told ≡ committed.Stopped kind) }
        ensures err { OnErr result (GivesBack self.old self.new task) }
        ensures halts { Halts D.Disk self.old self.new result }
    {
        stores_go_on::<D>();
        self.is_kept();
        match self.machine.may_stop(&task, kind) {
            Ok(()) => self.commit_fault(task, kind),
            Err(refusal) => {
                self.release(task);
                Err(CoreError::Refused(refusal))
            }
        }
    }

    // Commits that an instance is done, with these puts.
    fn commit_done(&mut self, task: Task, puts: Puts) -> Result<Committed, CoreError>
        requires running { state_of self.old task ≡ Some Running }
        requires working { is_halted self.old ≡ false }
        requires legal { IsLegal (graph self.old) (facts self.old) (Done task puts) }
        ensures commits { Commits D.Disk self.old self.new NoCause (Done task puts) result }
        ensures told { IfOk result (λ told. told ≡ committed.Done) }
        ensures err { OnErr result (GivesBack self.old self.new task) }
        ensures halts { Halts D.Disk self.old self.new result }
    {
        stores_go_on::<D>();
        self.is_kept();
        match self.make_room_for(&task, puts.as_slice()) {
            Ok(()) => {
                let event = Event::Done(task.inst(), puts);
                match self.commit_step(task, event) {
                    Ok(()) => Ok(Committed::Done),
                    Err(error) => Err(error),
                }
            }
            Err(error) => {
                self.release(task);
                Err(error)
            }
        }
    }

    // Commits a fault of an instance.
    fn commit_fault(&mut self, task: Task, kind: FaultKind) -> Result<Committed, CoreError>
        requires running { state_of self.old task ≡ Some Running }
        requires working { is_halted self.old ≡ false }
        requires legal { IsLegal (graph self.old) (facts self.old) (Stopped task kind) }
        ensures commits { Commits D.Disk self.old self.new NoCause (Stopped task kind) result }
        ensures told { IfOk result (λ told. told ≡ committed.Stopped kind) }
        ensures err { OnErr result (GivesBack self.old self.new task) }
        ensures halts { Halts D.Disk self.old self.new result }
    {
        let event = Event::Stopped(task.inst(), kind);
        match self.commit_step(task, event) {
            Ok(()) => Ok(Committed::Stopped(kind)),
            Err(error) => Err(error),
        }
    }

    // Makes room for the puts of an instance that is done.
    fn make_room_for(&mut self, task: &Task, puts: &[Put]) -> Result<(), CoreError>
        requires { IsLegal (graph self.old) (facts self.old) (Done task.now puts.now) }
        ensures ok { OnOk result (HasRoom self.new.machine puts.now) }
        ensures err { OnErr result (result ≡ Err (Store NoMemory)) }
        ensures legal { IsLegal (graph self.new) (facts self.new) (Done task.now puts.now) }
        ensures same { GivesRoom self.old self.new }
    {
        let _ = task;
        given_are_of_graph();
        runs_are_counted();
        self.machine.is_kept();
        match self.machine.make_room(puts) {
            Ok(()) => Ok(()),
            Err(_) => Err(CoreError::Store(VaultError::NoMemory)),
        }
    }
}
