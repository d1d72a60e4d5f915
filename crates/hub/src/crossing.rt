//! A hub may be shared by threads. Each function here is a law of that, with nothing to run.
ghost use denote.Param.Send.{IsSend, IsSync};
ghost use Rattle.commit.specs.contracts.commit_core.Core as of_core;
ghost use Rattle.commit.specs.contracts.events.Events as of_events;
ghost use Rattle.hub.specs.contracts.hub.Hub as of_hub;
ghost use Rattle.terms.specs.contracts.event.Event as of_event;
ghost use Rattle.vault.specs.contracts.vault.Vault as of_vault;

use crate::Kept;
use crate::glance::Glance;
use cells::cells_cross;
use disk::Disk;
use graph::{Graph, goes, graphs_cross, is_shared};
use machine::Machine;
use passes::{Board, Naming};
use std::sync::{Arc, Mutex};
use terms::Event;

// A `Vault` is `Send` if its disk is.
fn vaults_go<D: Disk + Send>()
    ensures { IsSend (of_vault.the_row D.row) }
{}

// An `Event` is `Send`.
fn events_go()
    ensures { IsSend of_event.the_row }
{
    goes::<Event>();
}

// The events of a commit are `Send`.
fn commits_go()
    ensures { IsSend of_events.the_row }
{
    events_go();
}

/// A `Core` is `Send` if its disk is.
pub fn cores_go<D: Disk + Send>()
    ensures { IsSend (of_core.the_row D.row D.Disk) }
{
    graphs_cross();
    goes::<Machine>();
    vaults_go::<D>();
    commits_go();
}

/// A `Hub` is `Sync` if its disk is `Send`.
pub fn hubs_cross<J: Naming + Send + Sync, D: Disk + Send>()
    ensures { IsSync (of_hub.the_row J.row D.row J.Naming D.Disk) }
{
    graphs_cross();
    cells_cross();
    cores_go::<D>();
    is_shared::<Arc<Graph>>();
    is_shared::<Mutex<Kept<J, D>>>();
    is_shared::<Board<J>>();
    is_shared::<Glance>();
}
