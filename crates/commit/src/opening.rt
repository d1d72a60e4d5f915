ghost use Rattle.std.specs.Prelude.{IfOk};
ghost use Rattle.graph.specs.Fits.{FitsState};
ghost use Rattle.holdings.specs.Holdings.{HavePutNumbers, IsFor, image_of, facts_held, environment_held};
ghost use Rattle.machine.specs.Restored.{Restores};

use crate::Core;
use crate::commit_core::FIRST_ALLOWANCE;
use crate::events::Events;
use disk::Disk;
use graph::Graph;
use holdings::Holdings;
use machine::Machine;
use std::alloc::{AllocError, Global};
use std::sync::Arc;
use vault::{Recovered, Refused, VaultError, stores_go_on};

impl<D: Disk> Core<D> {
    ghost use Rattle.std.specs.Prelude.{◌≡◌, false, IfErr, IfOk, IsTrue};
    ghost use Rattle.vault.specs.Opened.{IsHeld, IsSoundStore};
    ghost use Rattle.vault.specs.declared.error.VaultError.TheVariants.{NoMemory};
    ghost use Rattle.commit.specs.Opened.{IsOpened, IsCoreOf, OpensAs, disk_of};

    /// Opens the store on two files. It holds what they stand for, and each prescribed instance that is not done is ready.
    ///
    /// It returns `Damaged` and `NotAStore` only if the files stand for nothing, and hands the disk back with each error.
    /// Nothing is written, whatever is returned.
    pub fn open(alloc: Global, disk: D) -> Result<Core<D>, Refused<D>>
        ensures { OpensAs D.Disk disk result }
    {
        stores_go_on::<D>();
        match vault::open(alloc, disk) {
            Ok(recovered) => Core::recovered(alloc, recovered),
            Err(refused) => Err(refused),
        }
    }

    // The core of a store that was read.
    fn recovered(alloc: Global, recovered: Recovered<D>) -> Result<Core<D>, Refused<D>>
        requires sound { IsSoundStore recovered }
        requires working { recovered.vault.halted ≡ false }
        requires holds { IsTrue D.is_honest → IsHeld D.files recovered }
        ensures opened { IfOk result IsOpened }
        ensures lists { IfOk result (IsCoreOf recovered) }
        ensures disk { disk_of result ≡ recovered.vault.disk }
        ensures error { IfErr result (λ refused. refused.error ≡ NoMemory) }
    {
        stores_go_on::<D>();
        let Recovered {
            vault,
            graph,
            holdings,
        } = recovered;
        match restored(alloc, graph, holdings) {
            Ok(machine) => {
                machine.are_counted();
                Ok(Core {
                    vault,
                    machine,
                    in_doubt: Events::Nothing,
                    latest: Events::Nothing,
                    allowance: FIRST_ALLOWANCE,
                })
            }
            Err(_) => Err(Refused {
                disk: vault.into_disk(),
                error: VaultError::NoMemory,
            }),
        }
    }
}

// The state in memory of a store of this graph, which takes over what was read.
fn restored(alloc: Global, graph: Graph, holdings: Holdings) -> Result<Machine, AllocError>
    requires fits { FitsState graph (environment_held holdings) (facts_held holdings) }
    requires numbered { HavePutNumbers holdings }
    requires collections { IsFor graph holdings }
    ensures { IfOk result (Restores graph (image_of holdings)) }
{
    let graph = Arc::new(alloc, graph)?;
    Machine::of_holdings(alloc, graph, holdings)
}
