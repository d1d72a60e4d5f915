use crate::memory::Memory;
use crate::tally::Tally;
use graph::Graph;
use std::marker::Model;
use std::sync::Arc;
use terms::Addr;

/// The state of a store in memory: its graph, its items, its tags with the instances that they prescribe, and its fault.
///
/// An event is taken in three calls. `may_put_item`, `may_put_tag`, `may_end` and `may_stop` say whether it is legal, and if
/// not, why; `make_room` makes all the room that it needs, and may be refused; `take_item`, `take_tag`, `take_end` and
/// `take_fault` take it, and cannot fail.
pub struct Machine {
    pub(crate) graph: Arc<Graph>,
    pub(crate) memory: Memory,
    // Room for the addresses of one list of puts.
    pub(crate) addresses: Vec<Addr>,
    // The counts of one list of puts, for each collection of the graph.
    pub(crate) tally: Tally,
}

impl Drop for Machine {
    // Written by hand, so that dropping a machine is one call in the proofs of its callers.
    fn drop(self) {
        let Machine {
            graph: _,
            memory: _,
            addresses: _,
            tally: _,
        } = self;
    }
}

impl Model for Machine {
    ghost use Rattle.std.specs.Prelude.{◌≤◌, [], ◌≡◌};
    ghost use Rattle.std.specs.Coded.{codes};
    ghost use Rattle.std.specs.Vec.{vec_capacity};
    ghost use Rattle.terms.specs.declared.put.TheConstants.{MOST_PUTS};
    ghost use Rattle.graph.specs.contracts.graph.Graph as of_graph;
    ghost use Rattle.machine.specs.contracts.memory.Memory as of_memory;
    ghost use Rattle.machine.specs.Memory.{IsOf};
    ghost use Rattle.machine.specs.Tally.{HasPlaces};
    ghost use Rattle.machine.specs.Machine.{Machine as Seen};

    ghost Value = { Seen };

    ghost coded = { Prim.hlevel (codes, of_graph.the_row.coded, of_memory.the_row.coded) };

    ghost view = { λ m. record { graph = m.graph.value; memory = m.memory } };

    ghost invariant = { λ m. IsOf m.graph.value m.memory × ((MOST_PUTS ≤ vec_capacity m.addresses) × HasPlaces m.graph.value m.tally) };
}
