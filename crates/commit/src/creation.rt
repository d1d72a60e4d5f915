ghost use Rattle.std.specs.Prelude.{◌≡◌, false, IfOk, None};
ghost use Rattle.terms.specs.Facts.{Fact};
ghost use Rattle.terms.specs.declared.name.Inst.{Inst};
ghost use Rattle.machine.specs.Machine.{environment as environment_of, facts as facts_of, state_of as state_in};

use crate::Core;
use crate::commit_core::FIRST_ALLOWANCE;
use crate::events::Events;
use disk::Disk;
use graph::{Graph, GraphFault, canonical_reads, parse_spelled, reads_textual};
use machine::Machine;
use std::alloc::{AllocError, Global};
use std::sync::Arc;
use vault::{Refused, VaultError, stores_go_on};

/// Why a store was not created.
#[derive(Clone, Copy, Debug, PartialEq, Eq)]
pub enum CreateError {
    /// The text is no graph. This is checked first; both files are left as they are.
    Graph(GraphFault),
    /// The store could not be made: `Exists`, `NoMemory` or `Device`.
    Store(VaultError),
}

/// A disk that was handed back, and why no store was created on it.
#[derive(Drop)]
pub struct NotCreated<D: Disk> {
    pub disk: D,
    pub error: CreateError,
}

impl<D: Disk> Core<D> {
    ghost use Rattle.std.specs.Prelude.{◌≡◌, [], IfErr, IfOk, IsTrue};
    ghost use Rattle.disk.specs.Storage.{Leaves, ReportsAs};
    ghost use Rattle.disk.specs.declared.side.Side.TheVariants.{A};
    ghost use Rattle.disk.specs.File.{at_rest};
    ghost use Rattle.graph.specs.Canonical.{canonical};
    ghost use Rattle.graph.specs.Reads.{Reads};
    ghost use Rattle.vault.specs.Calls.{LeavesNonEmpty, RefusesToMake};
    ghost use Rattle.vault.specs.Store.{BComesFirst, answer_of as made_answer};
    ghost use Rattle.vault.specs.declared.error.VaultError.TheVariants.{Device, NoMemory};
    ghost use Rattle.commit.specs.declared.creation.CreateError.TheVariants.{Store};
    ghost use Rattle.commit.specs.Core.{graph as graph_of};
    ghost use Rattle.commit.specs.Created.{KeepsDiskOutside, IsCreated, TellsCreation, LeavesOthers, disk_of, answer_of};
    ghost use Rattle.commit.specs.Opened.{disk_of as opened_disk};

    /// Makes a store of the graph of this text, on two empty files. It holds nothing.
    ///
    /// The text is checked first, and all memory is asked for before the first call of the disk. Files that are not both
    /// empty are left as they are: `Exists`. An error hands the disk back.
    pub fn create(alloc: Global, disk: D, text: &[u8]) -> Result<Core<D>, NotCreated<D>>
        ensures created { IfOk result (IsCreated D.Disk text.now) }
        ensures refused { IfErr result (TellsCreation text.now disk) }
        ensures others { IsTrue D.is_honest → LeavesOthers D.Disk disk (disk_of result) (answer_of result) }
        ensures begins { IsTrue D.is_honest → D.files disk A ≡ at_rest [] → Leaves D.Disk disk (disk_of result) BComesFirst }
        ensures causes { ReportsAs D.Disk (Store Device) (Store NoMemory) disk (disk_of result) (answer_of result) }
        ensures grown_first { IfErr result (KeepsDiskOutside D.Disk disk) }
    {
        canonical_reads();
        reads_textual();
        match parse_spelled(alloc, text) {
            Ok((graph, canonical)) => match Core::made(alloc, disk, graph, &canonical) {
                Ok(core) => Ok(core),
                Err(refused) => {
                    let Refused { disk, error } = refused;
                    Err(NotCreated {
                        disk,
                        error: CreateError::Store(error),
                    })
                }
            },
            Err(fault) => Err(NotCreated {
                disk,
                error: CreateError::Graph(fault),
            }),
        }
    }

    // Makes a store of a graph with this canonical text.
    fn made(alloc: Global, disk: D, graph: Graph, text: &[u8]) -> Result<Core<D>, Refused<D>>
        requires spelled { text.now ≡ canonical graph }
        requires reads { Reads text.now graph }
        ensures graph { IfOk result (λ core. graph_of core ≡ graph) }
        ensures created { IfOk result (IsCreated D.Disk text.now) }
        ensures others { IsTrue D.is_honest → LeavesNonEmpty D.Disk disk (opened_disk result) (made_answer result) }
        ensures begins { IsTrue D.is_honest → D.files disk A ≡ at_rest [] → Leaves D.Disk disk (opened_disk result) BComesFirst }
        ensures refused { RefusesToMake D.Disk disk (opened_disk result) (made_answer result) }
    {
        stores_go_on::<D>();
        match empty_machine(alloc, graph) {
            Ok(machine) => match vault::create(alloc, disk, text) {
                Ok(vault) => {
                    machine.are_counted();
                    Ok(Core {
                        vault,
                        machine,
                        in_doubt: Events::Nothing,
                        latest: Events::Nothing,
                        allowance: FIRST_ALLOWANCE,
                    })
                }
                Err(refused) => Err(refused),
            },
            Err(_) => Err(Refused {
                disk,
                error: VaultError::NoMemory,
            }),
        }
    }
}

// The state in memory of a store of this graph that holds nothing.
fn empty_machine(alloc: Global, graph: Graph) -> Result<Machine, AllocError>
    ensures graph { IfOk result (λ m. m.graph ≡ graph) }
    ensures facts { IfOk result (λ m. (fact : Fact) → facts_of m fact ≡ false) }
    ensures environment { IfOk result (λ m. (fact : Fact) → environment_of m fact ≡ false) }
    ensures instances { IfOk result (λ m. (instance : Inst) → state_in m instance ≡ None) }
{
    let graph = Arc::new(alloc, graph)?;
    Machine::new(alloc, graph)
}
