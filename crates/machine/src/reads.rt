use crate::{Machine, Refusal};
use graph::Graph;
use std::sync::Arc;
use terms::{Addr, facts_are_told_apart};

impl Machine {
    ghost use Rattle.std.specs.Prelude.{◌≡◌, IfErr, IfOk, OnErr, OnOk};
    ghost use Rattle.graph.specs.Fits.{AddressIsOf};
    ghost use Rattle.graph.specs.Graph.{EnvironmentMayGet};
    ghost use Rattle.machine.specs.Machine.{IsValueAt, RefusesGet, RefusesRead, facts};

    /// The graph.
    pub fn graph(&self) -> &Arc<Graph>
        ensures { result.now.value ≡ self.now.graph }
    {
        &self.graph
    }

    /// The value at an address, as the environment gets it; `None` if no item is there.
    pub fn get(&self, addr: Addr) -> Result<Option<i64>, Refusal>
        ensures allowed { OnOk result (EnvironmentMayGet self.now.graph addr) }
        ensures value { IfOk result (IsValueAt (facts self.now) addr) }
        ensures refused { IfErr result (RefusesGet self.now.graph addr) }
    {
        let place = addr;
        self.is_address(place)?;
        if !self.graph.environment_may_get(addr.collection) {
            return Err(Refusal::NotFromEnvironment);
        }
        Ok(self.value_at(addr))
    }

    /// The value at an address of any collection of the graph, as a step reads it; `None` if no item is there.
    pub fn read(&self, addr: Addr) -> Result<Option<i64>, Refusal>
        ensures allowed { OnOk result (AddressIsOf self.now.graph addr) }
        ensures value { IfOk result (IsValueAt (facts self.now) addr) }
        ensures refused { IfErr result (RefusesRead self.now.graph addr) }
    {
        let place = addr;
        self.is_address(place)?;
        Ok(self.value_at(addr))
    }

    // Whether the address is of a collection of the graph, and has the number of components that its keys have.
    pub(crate) fn is_address(&self, addr: Addr) -> Result<(), Refusal>
        ensures address { OnOk result (AddressIsOf self.now.graph addr) }
        ensures other { OnErr result (AddressIsOf self.now.graph addr → ⊥) }
        ensures refused { IfErr result (RefusesRead self.now.graph addr) }
    {
        match self.graph.item_components(addr.collection) {
            None => Err(Refusal::NoSuchCollection),
            Some(components) if components == addr.key.components().len() => Ok(()),
            Some(_) => Err(Refusal::WrongArity),
        }
    }

    // The value at an address.
    fn value_at(&self, addr: Addr) -> Option<i64>
        ensures { IsValueAt (facts self.now) addr result }
    {
        facts_are_told_apart();
        match self.memory.items.get(addr) {
            Some((value, _)) => Some(value),
            None => None,
        }
    }
}
