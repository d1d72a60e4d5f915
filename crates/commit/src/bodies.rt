//! Runs the body of an instance over the items that are in memory.
ghost use Rattle.std.specs.Prelude.{◌≡◌, [], IfOk, IsSome, length};
ghost use Rattle.graph.specs.Graph.{IsGraph};
ghost use Rattle.graph.specs.Fits.{InstanceIsOf};
ghost use Rattle.machine.specs.Machine.{IsValueAt, facts, state_of};
ghost use Rattle.machine.specs.Results.{IsBodyOf};
ghost use Rattle.steplang.specs.Running.{Nothing};
ghost use Rattle.commit.specs.Came.{CameTo};

use crate::Outcome;
use graph::Graph;
use machine::Machine;
use std::alloc::{AllocError, Global};
use steplang::{Checked, Parked, Run, Turn};
use steptree::ends_within_limits;
use terms::{Addr, Inst};

/// What running the body of an instance came to.
#[derive(Drop)]
pub enum Came<'a> {
    /// The body's end.
    Ended(Outcome<'a>),
    /// The body waits for an item that is not there.
    Waits(Parked<'a>),
}

/// Runs the body of an instance, to its end or to an item that is not there. The graph is the machine's, passed by
/// itself, so that the machine can be changed while the result is kept.
pub fn run_body<'a>(
    alloc: Global,
    machine: &Machine,
    graph: &'a Graph,
    instance: Inst,
) -> Result<Came<'a>, AllocError>
    requires graph { graph.now ≡ machine.now.graph }
    requires there { IsSome (state_of machine.now instance) }
    ensures { IfOk result (CameTo machine.now instance) }
{
    machine.is_kept();
    let checked = body_of(graph, &instance);
    let run = Run::start(alloc, checked, instance)?;
    go_on(machine, run)
}

// The body of an instance's step.
fn body_of<'a>(graph: &'a Graph, instance: &Inst) -> &'a Checked
    requires graph { IsGraph graph.now }
    requires instance { InstanceIsOf graph.now instance.now }
    ensures body { IsBodyOf graph.now instance.now result.now.body }
    ensures parameters { length instance.now.key ≡ result.now.parameters }
{
    graph.body(instance.collection).unwrap()
}

// Gives a run the items that it asks for, to its end or to an item that is not there.
fn go_on<'a>(machine: &Machine, mut run: Run<'a>) -> Result<Came<'a>, AllocError>
    requires body { IsBodyOf machine.now.graph run.instance run.checked.now.body }
    requires begun { run.awaits ≡ Nothing }
    requires nothing_read { run.reads ≡ [] }
    ensures { IfOk result (CameTo machine.now run.entry.instance) }
{
    ends_within_limits();
    let mut answer = None;
    loop {
        match run.advance(answer)? {
            Turn::Need(address) => {
                answer = value_at(machine, address);
                if answer.is_none() {
                    return Ok(Came::Waits(run.park()));
                }
            }
            Turn::Gave(given) => return Ok(Came::Ended(Outcome::Gave(given))),
            Turn::Fault(bad) => return Ok(Came::Ended(Outcome::Fault(bad))),
        }
    }
}

// The value at an address; `None` if no item is there, or none can be.
fn value_at(machine: &Machine, address: Addr) -> Option<i64>
    ensures { IsValueAt (facts machine.now) address result }
{
    machine.is_kept();
    match machine.read(address) {
        Ok(value) => value,
        Err(_) => None,
    }
}
