ghost use Rattle.std.specs.Prelude.{◌≡◌, IfOk, length};
ghost use Rattle.steplang.specs.Running.{begun};

use crate::machine::Machine;
use crate::run::Run;
use std::alloc::{AllocError, Global};
use steptree::Checked;
use terms::Inst;

/// Memory for one run after another. The first run takes it from the system, and a run that is given back leaves it to the next one.
#[derive(Drop)]
pub struct Room<'a> {
    alloc: Global,
    machine: Option<Box<Machine<'a>>>,
}

impl<'a> Room<'a> {
    /// A room that has no memory yet.
    pub fn new(alloc: Global) -> Self {
        Room {
            alloc,
            machine: None,
        }
    }

    /// A run of this step for an instance, as by `Run::start`. It takes memory only if there is none here.
    pub fn begin(&mut self, checked: &'a Checked, instance: Inst) -> Result<Run<'a>, AllocError>
        requires { length instance.key ≡ checked.now.parameters }
        ensures begins { IfOk result (λ run. run ≡ begun checked.entry instance) }
    {
        match self.machine.take() {
            Some(mut machine) => {
                machine.restart(checked, instance.key);
                Ok(Run::of(self.alloc, checked, instance, machine))
            }
            None => Run::start(self.alloc, checked, instance),
        }
    }

    /// Keeps the memory of a run that is needed no more.
    pub fn keep(&mut self, run: Run<'a>) {
        self.machine = Some(run.into_machine());
    }
}
