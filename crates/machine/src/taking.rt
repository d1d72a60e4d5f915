use crate::Machine;
use crate::keeping::{given_are_of_graph, taking_keeps};
use instances::Task;
use terms::{Addr, FaultKind, Producer, Put, Tag, facts_are_told_apart, orders_are_total};

impl Machine {
    ghost use Rattle.std.specs.Prelude.{◌≡◌, Some, [], ◌∷◌};
    ghost use Rattle.terms.specs.declared.event.Event.TheVariants.{EnvItem, EnvTag, Done, Stopped};
    ghost use Rattle.terms.specs.declared.put.Put.TheVariants.{Item, Tag as Name};
    ghost use Rattle.instances.specs.declared.state.State.TheVariants.{Running};
    ghost use Rattle.machine.specs.Legal.{IsLegal};
    ghost use Rattle.machine.specs.Machine.{HasRoom, Takes, facts, state_of};

    /// Takes an item that the environment puts.
    pub fn take_item(&mut self, addr: Addr, value: i64)
        requires legal { IsLegal self.old.graph (facts self.old) (EnvItem addr value) }
        requires room { HasRoom self.old (Item addr value ∷ []) }
        ensures { Takes self.old self.new (EnvItem addr value) }
    {
        taking_keeps();
        facts_are_told_apart();
        self.memory.put(Producer::Env, Put::Item(addr, value));
    }

    /// Takes a tag that the environment puts.
    pub fn take_tag(&mut self, tag: Tag)
        requires legal { IsLegal self.old.graph (facts self.old) (EnvTag tag) }
        requires room { HasRoom self.old (Name tag ∷ []) }
        ensures { Takes self.old self.new (EnvTag tag) }
    {
        taking_keeps();
        facts_are_told_apart();
        self.memory.put(Producer::Env, Put::Tag(tag));
    }

    /// Takes the end of an instance that is done, with its puts.
    pub fn take_end(&mut self, task: Task, puts: &[Put])
        requires running { state_of self.old task ≡ Some Running }
        requires legal { IsLegal self.old.graph (facts self.old) (Done task puts.now) }
        requires room { HasRoom self.old puts.now }
        ensures { Takes self.old self.new (Done task puts.now) }
    {
        taking_keeps();
        given_are_of_graph();
        facts_are_told_apart();
        orders_are_total();
        let instance = task.inst();
        self.memory.instances.finish(task);
        self.memory.put_all(instance, puts);
    }

    /// Takes the fault of an instance.
    pub fn take_fault(&mut self, task: Task, kind: FaultKind)
        requires running { state_of self.old task ≡ Some Running }
        requires legal { IsLegal self.old.graph (facts self.old) (Stopped task kind) }
        ensures { Takes self.old self.new (Stopped task kind) }
    {
        taking_keeps();
        orders_are_total();
        facts_are_told_apart();
        self.memory.fault = Some((task.inst(), kind));
        self.memory.instances.release(task);
    }
}
