use crate::Machine;
use instances::Task;
use terms::Event;

impl Machine {
    ghost use Rattle.std.specs.Prelude.{◌≡◌, Some};
    ghost use Rattle.instances.specs.declared.state.State.TheVariants.{Running};
    ghost use Rattle.machine.specs.Legal.{IsLegal};
    ghost use Rattle.machine.specs.Machine.{Ends, HasRoom, IsPut, Takes, facts, puts_of, state_of};

    /// Takes what the environment puts: an item, or a tag.
    pub fn take_put(&mut self, event: &Event)
        requires put { IsPut event.now }
        requires legal { IsLegal self.old.graph (facts self.old) event.now }
        requires room { HasRoom self.old (puts_of event.now) }
        ensures { Takes self.old self.new event.now }
    {
        match event {
            Event::EnvItem(addr, value) => self.take_item(*addr, *value),
            Event::EnvTag(tag) => self.take_tag(*tag),
            Event::Done(_, _) | Event::Stopped(_, _) => {}
        }
    }

    /// Takes the event that ends the instance of a task: it is done, or it stops the store.
    pub fn take_step(&mut self, task: Task, event: &Event)
        requires ends { Ends event.now task }
        requires running { state_of self.old task ≡ Some Running }
        requires legal { IsLegal self.old.graph (facts self.old) event.now }
        requires room { HasRoom self.old (puts_of event.now) }
        ensures { Takes self.old self.new event.now }
    {
        match event {
            Event::Done(_, puts) => self.take_end(task, puts.as_slice()),
            Event::Stopped(_, kind) => self.take_fault(task, *kind),
            Event::EnvItem(_, _) | Event::EnvTag(_) => self.release(task),
        }
    }
}
