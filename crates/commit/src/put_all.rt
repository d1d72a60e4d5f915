//! Several puts of the environment, committed as one.
use crate::finish_all::{keep_in_doubt, keep_latest};
use crate::{Core, CoreError};
use disk::Disk;
use instances::runs_are_counted;
use machine::{fit_in_turn, taken_in_turn};
use terms::Event;
use vault::{VaultError, stores_go_on};

impl<D: Disk> Core<D> {
    ghost use Rattle.std.specs.Prelude.{◌≡◌, ◌≤◌, false, IfOk, IsTrue, OnErr, length};
    ghost use Rattle.std.specs.List.{AllByRecursion};
    ghost use Rattle.machine.specs.Machine.{IsPut};
    ghost use Rattle.machine.specs.State.{AreLegalFrom};
    ghost use Rattle.commit.specs.Core.{facts, graph, is_halted};
    ghost use Rattle.commit.specs.PutsAll.{PutsAll, RefusesPutsAs, TakesPuts, TriesPuts};
    ghost use Rattle.commit.specs.Calls.{CrashLeaves, HaltsInDoubt, IsUnchanged};
    ghost use Rattle.commit.specs.Room.{AreDue};

    /// Commits several puts of the environment as one commit, each after those before it, as far as they come together: up to the
    /// first that may not come, given those before it. A crash leaves all of the commit, or nothing. The answer is how many came; if
    /// none did, nothing was tried.
    ///
    /// It is refused with `Halted` by a halted core; otherwise only if some come: with `NoMemory`, with `Full`, or with `Device`. An error
    /// that does not halt leaves everything as it was; after one that does, all of the commit may be there, or nothing of it.
    pub fn put_all(&mut self, puts: Vec<Event>) -> Result<usize, CoreError>
        requires { AllByRecursion IsPut puts.items }
        ensures { PutsAll D.Disk self.old self.new puts.items result }
    {
        stores_go_on::<D>();
        taken_in_turn();
        self.is_kept();
        if self.vault.is_halted() {
            return Err(CoreError::Store(VaultError::Halted));
        }
        let count = self.machine.look_at_puts(&puts);
        if count == 0 {
            return Ok(0);
        }
        let mut puts = puts;
        puts.truncate(count);
        let answer = self.put_together(puts);
        self.is_kept();
        answer
    }

    // Commits these puts as one commit. There must be some, they must be legal, one after another.
    fn put_together(&mut self, puts: Vec<Event>) -> Result<usize, CoreError>
        requires some { 1 ≤ length puts.items }
        requires puts { AllByRecursion IsPut puts.items }
        requires working { is_halted self.old ≡ false }
        requires legal { AreLegalFrom (graph self.old) (facts self.old) puts.items }
        ensures tries { TriesPuts D.Disk self.old self.new puts.items result }
        ensures told { IfOk result (λ answer. answer ≡ length puts.items) }
    {
        stores_go_on::<D>();
        self.is_kept();
        match self.make_room_for_ends(&puts) {
            Ok(()) => self.commit_puts(puts),
            Err(error) => Err(error),
        }
    }

    // Commits these puts as one commit, for which there must be room.
    fn commit_puts(&mut self, puts: Vec<Event>) -> Result<usize, CoreError>
        requires some { 1 ≤ length puts.items }
        requires puts { AllByRecursion IsPut puts.items }
        requires due { AreDue self.old puts.items }
        ensures ok { IfOk result (λ answer. (answer ≡ length puts.items) × TakesPuts self.old self.new puts.items) }
        ensures err { OnErr result (IsUnchanged self.old self.new) }
        ensures refused { RefusesPutsAs self.old puts.items result }
        ensures halts { HaltsInDoubt D.Disk self.old self.new puts.items result }
        ensures moments { IsTrue D.is_honest → CrashLeaves D.Disk self.old self.new puts.items }
    {
        fit_in_turn();
        taken_in_turn();
        runs_are_counted();
        stores_go_on::<D>();
        self.machine.is_kept();
        let count = puts.len();
        match self.vault.append_all(&puts) {
            Ok(()) => {
                self.machine.take_puts(&puts);
                keep_latest(&mut self.latest, puts);
                Ok(count)
            }
            Err(error) => {
                keep_in_doubt(&mut self.in_doubt, self.vault.is_halted(), puts);
                Err(CoreError::Store(error))
            }
        }
    }
}
