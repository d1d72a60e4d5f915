use crate::Machine;
use terms::{facts_are_told_apart, orders_are_total};

impl Machine {
    ghost use Rattle.machine.specs.Promise.{IsKept};

    /// A law, with nothing to run: the invariant of a machine.
    pub fn is_kept(&self)
        ensures { IsKept self.now }
    {
        facts_are_told_apart();
        orders_are_total();
        self.memory.instances.are_there_together();
        self.memory.instances.are_counted();
    }
}
