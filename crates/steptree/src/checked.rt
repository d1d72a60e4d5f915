ghost use Rattle.std.specs.Prelude.{◌≡◌, IfOk};
ghost use Rattle.steptree.specs.Executed.{Performs};

use crate::compiler::compile;
use crate::{Body, Code};
use std::alloc::{AllocError, Global};

/// A step whose names are resolved: its variables are slots, and its collections are numbers.
pub struct Checked {
    /// The names of its parameters and, after them, of its variables, by slot.
    pub names: Vec<String>,
    /// The number of its parameters.
    pub parameters: usize,
    /// What it reads, and then what it puts.
    pub body: Body,
    /// The body as instructions.
    pub code: Code,
    pub ghost performs: { Performs code body },
}

impl Checked {
    /// A step with this body, whose code is made here.
    pub fn new(
        alloc: Global,
        names: Vec<String>,
        parameters: usize,
        body: Body,
    ) -> Result<Self, AllocError>
        ensures names { IfOk result (λ checked. checked.names ≡ names) }
        ensures parameters { IfOk result (λ checked. checked.parameters ≡ parameters) }
        ensures body { IfOk result (λ checked. checked.body ≡ body) }
    {
        let code = compile(alloc, &body)?;
        Ok(Checked {
            names,
            parameters,
            body,
            code,
        })
    }
}

impl Drop for Checked {
    // Written by hand, so that dropping a step is one call everywhere.
    fn drop(self) {
        let Checked {
            names: _,
            parameters: _,
            body: _,
            code: _,
        } = self;
    }
}
