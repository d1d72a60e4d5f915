use crate::events::Events;
use disk::Disk;
use graph::Graph;
use instances::Task;
use machine::Machine;
use std::marker::Model;
use std::sync::Arc;
use terms::{Event, FaultKind, Inst};
use vault::Vault;

/// A store on two files, with its state in memory.
///
/// Each event that it takes is on the disk before the call returns `Ok`, and a refusal leaves each fact as it was. If a
/// call of the disk returns an error the core halts: from then on each call that has an error returns `Halted`.
pub struct Core<D: Disk> {
    pub(crate) vault: Vault<D>,
    pub(crate) machine: Machine,
    // The commit that the call that halted the core tried, if it tried one.
    pub(crate) in_doubt: Events,
    // The latest commit since the opening.
    pub(crate) latest: Events,
    // How many more steps may be committed, including those that run.
    pub(crate) allowance: u64,
}

impl<D: Disk + Drop> Drop for Core<D> {
    // By hand, so that dropping a core is one call, wherever it is dropped.
    fn drop(self) {
        let Core {
            vault: _,
            machine: _,
            in_doubt: _,
            latest: _,
            allowance: _,
        } = self;
    }
}

impl<D: Disk> Model for Core<D> {
    ghost use Rattle.std.specs.Prelude.{◌≡◌, ◌≤◌, false, IsTrue};
    ghost use Rattle.std.specs.Coded.{codes};
    ghost use Rattle.machine.specs.contracts.machine.Machine as of_machine;
    ghost use Rattle.commit.specs.Core.{Core as Seen};
    ghost use Rattle.machine.specs.Machine.{running_count};
    ghost use Rattle.commit.specs.declared.events.Events.TheVariants.{Nothing};
    ghost use Rattle.commit.specs.Doubt.{events_in};
    ghost use Rattle.commit.specs.Kept.{IsKept};

    ghost Value = { Seen D };

    ghost coded = { Prim.hlevel (codes, of_machine.the_row.coded) };

    ghost view = { λ c. record { vault = c.vault; machine = c.machine; in_doubt = events_in c.in_doubt; latest = events_in c.latest; allowance = c.allowance } };

    ghost invariant = { λ c. (c.vault.halted ≡ false → c.in_doubt ≡ Nothing)
        × (IsTrue D.is_honest → IsKept D.files (record { vault = c.vault; machine = c.machine; in_doubt = events_in c.in_doubt; latest = events_in c.latest; allowance = c.allowance }))
        × (running_count c.machine ≤ c.allowance) };
}

impl<D: Disk> Core<D> {
    ghost use Rattle.std.specs.Prelude.{◌≡◌};

    /// The events of the latest commit since the core was made or opened; none before the first. It takes no memory.
    pub fn last_commit(&self) -> &[Event]
        ensures { result.now ≡ self.now.latest }
    {
        self.latest.as_slice()
    }

    /// Gives the disk back, for another opening.
    pub fn into_disk(self) -> D
        ensures { result ≡ self.vault.disk }
    {
        let Core {
            vault,
            machine: _,
            in_doubt: _,
            latest: _,
            allowance: _,
        } = self;
        vault.into_disk()
    }
}

/// How many steps a core that was opened may commit before the first `allow`.
pub const FIRST_ALLOWANCE: u64 = 1_000_000_000;
