//! Runs the body of an instance over the items that are marked.
ghost use Rattle.std.specs.Prelude.{◌≡◌, [], IfOk, length};
ghost use Rattle.graph.specs.Fits.{InstanceIsOf};
ghost use Rattle.machine.specs.Machine.{IsValueAt};
ghost use Rattle.machine.specs.Marked.{marked};
ghost use Rattle.machine.specs.Results.{IsBodyOf};
ghost use Rattle.steplang.specs.Running.{Nothing};
ghost use Rattle.audit.specs.Replayed.{CameTo};

use commit::{Came, Outcome};
use graph::Graph;
use machine::Marks;
use maps::Hint;
use std::alloc::{AllocError, Global};
use steplang::{Checked, Run, Turn};
use steptree::ends_within_limits;
use terms::{Addr, Inst, facts_are_told_apart};

/// Runs the body of an instance, to its end or to an item that is not marked.
pub(crate) fn run_body<'a>(
    alloc: Global,
    marks: &Marks<'_>,
    graph: &'a Graph,
    instance: Inst,
    hint: &mut Hint,
) -> Result<Came<'a>, AllocError>
    requires { InstanceIsOf graph.now instance }
    ensures { IfOk result (CameTo graph.now marks.now instance) }
{
    let checked = body_of(graph, &instance);
    let run = Run::start(alloc, checked, instance)?;
    go_on(marks, graph, run, hint)
}

// The body of an instance's step.
fn body_of<'a>(graph: &'a Graph, instance: &Inst) -> &'a Checked
    requires { InstanceIsOf graph.now instance.now }
    ensures body { IsBodyOf graph.now instance.now result.now.body }
    ensures parameters { length instance.now.key ≡ result.now.parameters }
{
    graph.body(instance.collection).unwrap()
}

// Gives a run the items that it asks for, to its end or to an item that is not marked.
fn go_on<'a>(
    marks: &Marks<'_>,
    graph: &Graph,
    mut run: Run<'a>,
    hint: &mut Hint,
) -> Result<Came<'a>, AllocError>
    requires body { IsBodyOf graph.now run.instance run.checked.now.body }
    requires begun { run.awaits ≡ Nothing }
    requires nothing_read { run.reads ≡ [] }
    ensures { IfOk result (CameTo graph.now marks.now run.entry.instance) }
{
    ends_within_limits();
    let mut answer = None;
    loop {
        match run.advance(answer)? {
            Turn::Need(address) => {
                answer = value_at(marks, address, hint);
                if answer.is_none() {
                    return Ok(Came::Waits(run.park()));
                }
            }
            Turn::Gave(given) => return Ok(Came::Ended(Outcome::Gave(given))),
            Turn::Fault(bad) => return Ok(Came::Ended(Outcome::Fault(bad))),
        }
    }
}

/// The value of the item at an address, if one is there and marked.
pub(crate) fn value_at(marks: &Marks<'_>, address: Addr, hint: &mut Hint) -> Option<i64>
    ensures { IsValueAt (marked marks.now) address result }
{
    facts_are_told_apart();
    marks.is_part();
    match marks.item(address, hint) {
        Some((value, _, mark)) => mark.then_some(value),
        None => None,
    }
}
