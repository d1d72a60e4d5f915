ghost use Rattle.std.specs.Prelude.{◌≡◌, ◌≤◌, ◌^◌, IfOk, length, map};
ghost use Rattle.graph.specs.Graph.{IsGraph};

use crate::Machine;
use crate::memory::Memory;
use crate::tally::Tally;
use graph::Graph;
use instances::Instances;
use items::Items;
use std::alloc::{AllocError, Global};
use std::sync::Arc;
use steptree::limits;
use terms::{MOST_PUTS, StepCollection, TagCollection};

impl Machine {
    ghost use Rattle.std.specs.Prelude.{◌≡◌, false, IfOk, None};
    ghost use Rattle.terms.specs.Facts.{Fact};
    ghost use Rattle.terms.specs.declared.name.Inst.{Inst};
    ghost use Rattle.machine.specs.Machine.{environment, facts, state_of};

    /// The state of an empty store of this graph.
    pub fn new(alloc: Global, graph: Arc<Graph>) -> Result<Self, AllocError>
        ensures graph { IfOk result (λ m. m.graph ≡ graph.value) }
        ensures facts { IfOk result (λ m. (fact : Fact) → facts m fact ≡ false) }
        ensures environment { IfOk result (λ m. (fact : Fact) → environment m fact ≡ false) }
        ensures instances { IfOk result (λ m. (instance : Inst) → state_of m instance ≡ None) }
    {
        let memory = Memory::new(alloc, &graph)?;
        let addresses = Vec::with_capacity(alloc, MOST_PUTS)?;
        let tally = Tally::new(alloc, graph.item_count(), graph.tag_count())?;
        Ok(Machine {
            graph,
            memory,
            addresses,
            tally,
        })
    }
}

impl Memory {
    ghost use Rattle.std.specs.Prelude.{IfOk};
    ghost use Rattle.machine.specs.Creation.{HoldsNothing};

    // What a store of this graph holds before the first event.
    pub(crate) fn new(alloc: Global, graph: &Graph) -> Result<Self, AllocError>
        ensures { IfOk result (HoldsNothing graph.now) }
    {
        limits();
        let items = Items::new(alloc, graph.item_count())?;
        let prescribers = prescribers_of(alloc, graph)?;
        let instances = Instances::new(alloc, graph.tag_count(), &prescribers)?;
        Ok(Memory {
            items,
            instances,
            fault: None,
        })
    }
}

// The tag collection that prescribes each step, by the numbers of the steps.
pub(crate) fn prescribers_of(alloc: Global, graph: &Graph) -> Result<Vec<TagCollection>, AllocError>
    ensures graph { IsGraph graph.now }
    ensures few { IfOk result (λ prescribers. length prescribers.items ≤ 2 ^ 16) }
    ensures by_step { IfOk result (λ prescribers. map (λ tag. tag.0) prescribers.items ≡ map (λ step. step.prescriber) graph.now.steps) }
{
    limits();
    let count = graph.step_count();
    let mut prescribers = Vec::with_capacity(alloc, count)?;
    for number in 0..count {
        let prescriber = graph.prescriber(StepCollection(number as u16)).unwrap();
        prescribers.push(prescriber)?;
    }
    Ok(prescribers)
}
