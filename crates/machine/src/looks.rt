use crate::{Machine, Refusal};
use terms::{Addr, Tag, facts_are_told_apart};

impl Machine {
    ghost use Rattle.std.specs.Prelude.{◌≡◌, ℤ, IfErr, OnErr, OnOk};
    ghost use Rattle.terms.specs.declared.event.Event.TheVariants.{EnvItem, EnvTag};
    ghost use Rattle.graph.specs.Fits.{HasNoFault, IsAbsent};
    ghost use Rattle.machine.specs.Legal.{IsLegal};
    ghost use Rattle.machine.specs.Machine.{RefusesItem, RefusesTag, RefusesEnd, RefusesSecond, facts};

    /// Whether the environment may put an item at an address, and if not, why.
    pub fn may_put_item(&self, addr: Addr) -> Result<(), Refusal>
        ensures legal { OnOk result ((value : ℤ) → IsLegal self.now.graph (facts self.now) (EnvItem addr value)) }
        ensures illegal { OnErr result ((value : ℤ) → IsLegal self.now.graph (facts self.now) (EnvItem addr value) → ⊥) }
        ensures refused { IfErr result (RefusesItem self.now.graph (facts self.now) addr) }
    {
        let place = addr;
        self.is_address(place)?;
        if !self.graph.environment_may_put_item(addr.collection) {
            return Err(Refusal::NotFromEnvironment);
        }
        self.is_working()?;
        self.is_absent(addr)
    }

    /// Whether the environment may put a tag, and if not, why.
    pub fn may_put_tag(&self, tag: Tag) -> Result<(), Refusal>
        ensures legal { OnOk result (IsLegal self.now.graph (facts self.now) (EnvTag tag)) }
        ensures illegal { OnErr result (IsLegal self.now.graph (facts self.now) (EnvTag tag) → ⊥) }
        ensures refused { IfErr result (RefusesTag self.now.graph (facts self.now) tag) }
    {
        let Some(components) = self.graph.tag_components(tag.collection) else {
            return Err(Refusal::NoSuchCollection);
        };
        if components != tag.key.components().len() {
            return Err(Refusal::WrongArity);
        }
        if !self.graph.environment_may_put_tag(tag.collection) {
            return Err(Refusal::NotFromEnvironment);
        }
        self.is_working()?;
        match self.memory.instances.mark(tag) {
            Some(_) => Err(Refusal::Repeat),
            None => Ok(()),
        }
    }

    // Whether no item is at the address.
    fn is_absent(&self, addr: Addr) -> Result<(), Refusal>
        ensures absent { OnOk result (IsAbsent (facts self.now) addr) }
        ensures there { IfErr result (RefusesSecond (facts self.now) addr) }
    {
        facts_are_told_apart();
        match self.memory.items.get(addr) {
            Some((there, _)) => Err(Refusal::AlreadyPut(there)),
            None => Ok(()),
        }
    }

    // Whether the store has no fault.
    pub(crate) fn is_working(&self) -> Result<(), Refusal>
        ensures working { OnOk result (HasNoFault (facts self.now)) }
        ensures stopped { IfErr result (RefusesEnd (facts self.now)) }
    {
        facts_are_told_apart();
        match self.memory.fault {
            Some((instance, kind)) => Err(Refusal::Stopped(instance, kind)),
            None => Ok(()),
        }
    }
}
