ghost use Rattle.steplang.specs.Stages.{IsReady, IsStarted, IsWaiting};

use crate::machine::{Machine, Step};
use crate::outcome::{Bad, Given, Reads, Turn};
use std::alloc::{AllocError, Global};
use std::marker::Model;
use std::mem;
use steptree::{Checked, Slot};
use terms::{Addr, Inst, Puts};

/// How far a run is.
#[derive(Clone, Copy)]
pub(crate) enum Stage {
    /// Nothing was done yet, or the run has just taken the value that it asked for.
    Ready,
    /// It asks for an item, whose value is for this variable.
    Waits(Addr, Slot),
    /// It has ended.
    Over,
    /// Memory was refused.
    Refused,
}

/// The body of an instance while it runs. It stops at each item that the body gets, and goes on with its value. Clauses see
/// it as a `Running`: its step, its instance, what it has read, and what it waits for.
#[derive(Drop)]
pub struct Run<'a> {
    alloc: Global,
    checked: &'a Checked,
    instance: Inst,
    // In memory of its own, so that a run is moved in a few words.
    machine: Box<Machine<'a>>,
    reads: Vec<(Addr, i64)>,
    stage: Stage,
    ghost ready: { IsReady stage checked.now.body instance.key reads.items machine.value },
    ghost waiting: { IsWaiting stage checked.now.body instance.key reads.items machine.value },
}

impl<'a> Model for Run<'a> {
    ghost use Rattle.std.specs.Coded.{codes};
    ghost use Rattle.steptree.specs.contracts.checked.Checked as step;
    ghost use Rattle.steplang.specs.Running.{Running};

    ghost Value = { Running };

    ghost coded = { Prim.hlevel (codes, step.the_row.coded) };

    ghost use Rattle.steplang.specs.Stages.{awaits_of};

    ghost view = { λ r. record { checked = r.checked; instance = r.instance; reads = r.reads.items; awaits = awaits_of r.stage } };
}

impl<'a> Run<'a> {
    ghost use Rattle.std.specs.Prelude.{◌≡◌, length, IfOk, IfSome, OnOk, OnErr, IsErr};
    ghost use Rattle.steplang.specs.Running.{Nothing, Refused, IsDue, pending_of, begun, answered};
    ghost use Rattle.steplang.specs.Turns.{Tells};
    ghost use Rattle.steptree.specs.Bodies.{Along, Asks};

    /// A run of this step for an instance, whose key has as many components as the step has parameters.
    pub fn start(alloc: Global, checked: &'a Checked, instance: Inst) -> Result<Run<'a>, AllocError>
        requires { length instance.key ≡ checked.now.parameters }
        ensures begins { IfOk result (λ run. run ≡ begun checked.entry instance) }
    {
        let machine = Box::new(alloc, Machine::start(alloc, checked, instance.key))?;
        Ok(Run::of(alloc, checked, instance, machine))
    }

    // A run whose machine stands before the first statement of the body.
    pub(crate) fn of(
        alloc: Global,
        checked: &'a Checked,
        instance: Inst,
        machine: Box<Machine<'a>>,
    ) -> Run<'a>
        requires { IsStarted machine.value checked.now.body instance.key }
        ensures { result ≡ begun checked.entry instance }
    {
        Run {
            alloc,
            checked,
            instance,
            machine,
            reads: Vec::new(alloc),
            stage: Stage::Ready,
        }
    }

    // The memory of its machine.
    pub(crate) fn into_machine(self) -> Box<Machine<'a>> {
        let Run { machine, .. } = self;
        machine
    }

    /// Goes on: first with `None`, then with the value of the item that it asks for. Do not call it after the end.
    ///
    /// After a refusal of memory each further call fails too.
    pub fn advance(&mut self, answer: Option<i64>) -> Result<Turn<'a>, AllocError>
        requires { IsDue self.old.awaits answer }
        ensures turn { IfOk result (λ turn. Tells turn (answered self.old answer) self.new) }
        ensures same { (self.new.checked ≡ self.old.checked) × (self.new.instance ≡ self.old.instance) }
        ensures refused { OnErr result (self.new.awaits ≡ Refused) }
        ensures stays { self.old.awaits ≡ Refused → IsErr result }
    {
        self.take(answer)?;
        self.proceed()
    }

    // Takes the value of the item that is asked for, if one is.
    fn take(&mut self, answer: Option<i64>) -> Result<(), AllocError>
        requires { IsDue self.old.awaits answer }
        ensures answered { OnOk result (self.new ≡ answered self.old answer) }
        ensures same { (self.new.checked ≡ self.old.checked) × (self.new.instance ≡ self.old.instance) }
        ensures refused { OnErr result (self.new.awaits ≡ Refused) }
        ensures stays { self.old.awaits ≡ Refused → IsErr result }
    {
        let stage = self.stage;
        self.stage = Stage::Refused;
        match (stage, answer) {
            (Stage::Ready, None) => {}
            (Stage::Waits(address, variable), Some(value)) => {
                self.reads.reserve(1)?;
                self.reads.push_reserved((address, value));
                self.machine.answer(variable, value);
            }
            _ => return Err(AllocError),
        }
        self.stage = Stage::Ready;
        Ok(())
    }

    // Runs to the next item that it asks for, or to the end.
    fn proceed(&mut self) -> Result<Turn<'a>, AllocError>
        requires { self.old.awaits ≡ Nothing }
        ensures turn { IfOk result (λ turn. Tells turn self.old self.new) }
        ensures same { (self.new.checked ≡ self.old.checked) × (self.new.instance ≡ self.old.instance) }
        ensures refused { OnErr result (self.new.awaits ≡ Refused) }
    {
        self.stage = Stage::Refused;
        match self.machine.go()? {
            Step::On => unreachable!(),
            Step::Asked(variable) => {
                let asked = self.machine.asked;
                let address = asked;
                self.stage = Stage::Waits(address, variable);
                Ok(Turn::Need(asked))
            }
            Step::Failed(kind) => {
                self.stage = Stage::Over;
                let reads = mem::replace(&mut self.reads, Vec::new(self.alloc));
                Ok(Turn::Fault(Bad {
                    checked: self.checked,
                    instance: self.instance,
                    reads: Reads::new(reads),
                    kind,
                }))
            }
            Step::Ended => {
                self.stage = Stage::Over;
                let reads = mem::replace(&mut self.reads, Vec::new(self.alloc));
                let puts = mem::replace(&mut self.machine.puts, Vec::new(self.alloc));
                Ok(Turn::Gave(Given {
                    checked: self.checked,
                    instance: self.instance,
                    reads: Reads::new(reads),
                    puts: Puts::new(puts),
                }))
            }
        }
    }

    /// The item that is asked for.
    pub fn pending(&self) -> Option<Addr>
        ensures { result ≡ pending_of self.now.awaits }
    {
        match self.stage {
            Stage::Waits(address, _) => Some(address),
            _ => None,
        }
    }

    // The item that is asked for, along what it has read.
    pub(crate) fn asked(&self) -> Option<Addr>
        ensures asked { result ≡ pending_of self.now.awaits }
        ensures along { IfSome result (λ address. Along self.now.checked.now.body self.now.instance.key self.now.reads (Asks address)) }
    {
        match self.stage {
            Stage::Waits(address, _) => Some(address),
            _ => None,
        }
    }

    /// How many statements and turns of loops it has made so far. No clause says it: it is for whoever shares out the work.
    pub fn statements(&self) -> u32 {
        self.machine.progress.counted
    }

    /// The instance.
    pub fn instance(&self) -> Inst
        ensures { result ≡ self.now.instance }
    {
        self.instance
    }

    /// The items that it has read, in order, each an address and its value.
    pub fn reads(&self) -> &[(Addr, i64)]
        ensures { result.now ≡ self.now.reads }
    {
        &self.reads
    }
}
