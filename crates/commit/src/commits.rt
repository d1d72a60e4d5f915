ghost use Rattle.std.specs.Prelude.{◌≡◌, cond};
ghost use Rattle.commit.specs.declared.events.Events.TheVariants.{One};

use crate::events::Events;
use crate::{Core, CoreError};
use disk::Disk;
use instances::{Task, runs_are_counted};
use machine::legal_events_fit;
use terms::{Event, facts_are_told_apart};
use vault::stores_go_on;

impl<D: Disk> Core<D> {
    ghost use Rattle.std.specs.Prelude.{◌≡◌, [], ◌∷◌, IsTrue, OnErr, OnOk, Some};
    ghost use Rattle.instances.specs.declared.state.State.TheVariants.{Running};
    ghost use Rattle.machine.specs.Machine.{Ends, IsPut};
    ghost use Rattle.commit.specs.Core.{state_of};
    ghost use Rattle.commit.specs.Calls.{CrashLeaves, GivesBack, HaltsInDoubt, IsUnchanged, NoCause, RefusesAs, Takes};
    ghost use Rattle.commit.specs.Room.{IsDue};

    /// Commits a put of the environment, which must be due.
    pub(crate) fn commit_put(&mut self, event: Event) -> Result<(), CoreError>
        requires put { IsPut event }
        requires due { IsDue self.old event }
        ensures ok { OnOk result (Takes self.old self.new event) }
        ensures err { OnErr result (IsUnchanged self.old self.new) }
        ensures refused { RefusesAs self.old NoCause event result }
        ensures halts { HaltsInDoubt D.Disk self.old self.new (event ∷ []) result }
        ensures moments { IsTrue D.is_honest → CrashLeaves D.Disk self.old self.new (event ∷ []) }
    {
        legal_events_fit();
        runs_are_counted();
        stores_go_on::<D>();
        self.machine.is_kept();
        match self.vault.append(&event) {
            Ok(()) => {
                self.machine.take_put(&event);
                keep_latest(&mut self.latest, event);
                Ok(())
            }
            Err(error) => {
                keep_in_doubt(&mut self.in_doubt, self.vault.is_halted(), event);
                Err(CoreError::Store(error))
            }
        }
    }

    /// Commits the end of the instance of a task, which must be due. If it is refused the instance is ready.
    pub(crate) fn commit_step(&mut self, task: Task, event: Event) -> Result<(), CoreError>
        requires ends { Ends event task }
        requires running { state_of self.old task ≡ Some Running }
        requires due { IsDue self.old event }
        ensures ok { OnOk result (Takes self.old self.new event) }
        ensures err { OnErr result (GivesBack self.old self.new task) }
        ensures refused { RefusesAs self.old NoCause event result }
        ensures halts { HaltsInDoubt D.Disk self.old self.new (event ∷ []) result }
        ensures moments { IsTrue D.is_honest → CrashLeaves D.Disk self.old self.new (event ∷ []) }
    {
        legal_events_fit();
        runs_are_counted();
        stores_go_on::<D>();
        self.machine.is_kept();
        match self.vault.append(&event) {
            Ok(()) => {
                self.machine.take_step(task, &event);
                keep_latest(&mut self.latest, event);
                self.allowance -= 1;
                Ok(())
            }
            Err(error) => {
                self.machine.release(task);
                keep_in_doubt(&mut self.in_doubt, self.vault.is_halted(), event);
                Err(CoreError::Store(error))
            }
        }
    }
}

// Keeps the event of an append that returned an error, if the error halted the vault.
fn keep_in_doubt(in_doubt: &mut Events, halted: bool, event: Event)
    ensures { in_doubt.new ≡ cond halted (One event) in_doubt.old }
{
    if halted {
        *in_doubt = Events::One(event);
    }
}

// Keeps the event of a commit as the latest.
fn keep_latest(latest: &mut Events, event: Event)
    ensures { latest.new ≡ One event }
{
    *latest = Events::One(event);
}
