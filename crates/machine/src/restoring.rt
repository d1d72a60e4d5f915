ghost use Rattle.holdings.specs.Holdings.{facts_held, environment_held};

use crate::Machine;
use crate::creation::prescribers_of;
use crate::memory::Memory;
use crate::tally::Tally;
use graph::Graph;
use holdings::{Holdings, Parts, images_of_maps};
use instances::Instances;
use std::alloc::{AllocError, Global};
use std::sync::Arc;
use steptree::limits;
use terms::{MOST_PUTS, facts_are_told_apart, orders_are_total};

impl Machine {
    ghost use Rattle.std.specs.Prelude.{IfOk};
    ghost use Rattle.std.specs.List.{AllByRecursion};
    ghost use Rattle.graph.specs.Fits.{FitsState};
    ghost use Rattle.codec.specs.Spelling.{HasPutNumber};
    ghost use Rattle.holdings.specs.Holdings.{IsFor, image_of};
    ghost use Rattle.machine.specs.Restored.{Restores};

    /// The state of a store of this graph that holds what was read, whose maps it takes over. Each prescribed instance that is not done
    /// is ready.
    pub fn of_holdings(
        alloc: Global,
        graph: Arc<Graph>,
        holdings: Holdings,
    ) -> Result<Self, AllocError>
        requires fits { FitsState graph.value (environment_held holdings) (facts_held holdings) }
        requires numbered { AllByRecursion HasPutNumber (image_of holdings).items }
        requires collections { IsFor graph.value holdings }
        ensures { IfOk result (Restores graph.value (image_of holdings)) }
    {
        let memory = Memory::of_holdings(alloc, &graph, holdings)?;
        let addresses = Vec::with_capacity(alloc, MOST_PUTS)?;
        let tally = Tally::new(alloc, graph.item_count(), graph.tag_count())?;
        Ok(Machine {
            graph,
            memory,
            addresses,
            tally,
        })
    }
}

impl Memory {
    ghost use Rattle.std.specs.Prelude.{IfOk};
    ghost use Rattle.std.specs.List.{AllByRecursion};
    ghost use Rattle.graph.specs.Fits.{FitsState};
    ghost use Rattle.codec.specs.Spelling.{HasPutNumber};
    ghost use Rattle.holdings.specs.Holdings.{IsFor, image_of};
    ghost use Rattle.machine.specs.Restoring.{IsRestored};

    // What a store of this graph holds after it took over what was read.
    fn of_holdings(alloc: Global, graph: &Graph, holdings: Holdings) -> Result<Self, AllocError>
        requires fits { FitsState graph.now (environment_held holdings) (facts_held holdings) }
        requires numbered { AllByRecursion HasPutNumber (image_of holdings).items }
        requires collections { IsFor graph.now holdings }
        ensures { IfOk result (IsRestored graph.now (image_of holdings)) }
    {
        limits();
        facts_are_told_apart();
        orders_are_total();
        images_of_maps();
        let prescribers = prescribers_of(alloc, graph)?;
        let Parts {
            fault,
            items,
            tags,
            done,
        } = holdings.into_parts();
        let instances = Instances::restored(alloc, tags, &done, &prescribers)?;
        instances.are_there_together();
        Ok(Memory {
            items,
            instances,
            fault,
        })
    }
}
