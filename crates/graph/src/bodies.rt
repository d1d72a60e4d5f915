ghost use Rattle.std.specs.Prelude.{◌≡◌, ◌<◌, [], length, map, IfOk, IfErr, OnOk};
ghost use Rattle.steptree.specs.CheckFaults.{faults_of};
ghost use Rattle.steptree.specs.Limits.{IsWithinLimits};
ghost use Rattle.steptree.specs.Resolved.{Resolves};
ghost use Rattle.steptree.specs.Sheet.{BodyKeepsTo};
ghost use Rattle.graph.specs.CheckedSteps.{ChecksStep, ChecksBodies};
ghost use Rattle.graph.specs.Faults.{body_fault, tree_faults};
ghost use Rattle.graph.specs.Placed.{IsFirst};
ghost use Rattle.graph.specs.Resolved.{IsResolved};
ghost use Rattle.graph.specs.Small.{IsSmall};

use crate::fault::{GraphError, PlacedFault};
use crate::graph::Prescribed;
use crate::numbered::Numbered;
use crate::resolved::Resolved;
use std::alloc::{AllocError, Global};
use steptree::{CheckError, Checked, Sheet, Step, check};
use syntax::Tree;

/// The body of a step, checked by its sheet (what the step may name); or its first fault.
fn check_body(alloc: Global, step: &Step<'_>, sheet: &Sheet<'_>) -> Result<Checked, PlacedFault>
    requires { IsWithinLimits sheet.now step.now }
    ensures resolves { IfOk result (λ checked. Resolves sheet.now step.now checked) }
    ensures keeps { IfOk result (λ checked. BodyKeepsTo sheet.now checked.body) }
    ensures no_fault { OnOk result (faults_of sheet.now step.now ≡ []) }
    ensures first { IfErr result (IsFirst (map body_fault (faults_of sheet.now step.now))) }
{
    match check(alloc, step, sheet) {
        Ok(checked) => Ok(checked),
        Err(fault) => match fault.error {
            CheckError::NoMemory => Err(PlacedFault {
                error: GraphError::NoMemory,
                position: 0,
            }),
            error => Err(PlacedFault {
                error: GraphError::Check(error),
                position: fault.place,
            }),
        },
    }
}

/// A copy of a row of marks.
fn copied(row: &Vec<bool>) -> Result<Vec<bool>, AllocError>
    ensures { IfOk result (λ copy. copy.items ≡ row.now.items) }
{
    row.clone()
}

/// The step with a number: what prescribes it, what it may read and put, and its body; or the first fault of its body.
fn check_step(
    alloc: Global,
    tree: &Tree<'_>,
    resolved: &Resolved<'_>,
    number: usize,
) -> Result<Prescribed, PlacedFault>
    requires small { IsSmall tree.now }
    requires no_fault { tree_faults tree.now ≡ [] }
    requires resolved { IsResolved tree.now resolved.now }
    requires within { number < length tree.now.steps.items }
    ensures { ChecksStep tree.now number result }
{
    let relations = &resolved.relations;
    let reads = &relations.reads[number];
    let item_puts = &relations.item_puts[number];
    let tag_puts = &relations.tag_puts[number];
    let sheet = Sheet {
        items: &resolved.items.declared,
        tags: &resolved.tags.declared,
        reads,
        item_puts,
        tag_puts,
    };
    let checked = check_body(alloc, &tree.steps[number], &sheet)?;
    Ok(Prescribed {
        prescriber: relations.prescribers[number].unwrap(),
        reads: copied(reads)?,
        item_puts: copied(item_puts)?,
        tag_puts: copied(tag_puts)?,
        checked,
    })
}

/// The steps of a tree by their numbers, or the first fault of their bodies.
pub(crate) fn check_bodies(
    alloc: Global,
    tree: &Tree<'_>,
    resolved: &Resolved<'_>,
) -> Result<Numbered<Prescribed>, PlacedFault>
    requires small { IsSmall tree.now }
    requires no_fault { tree_faults tree.now ≡ [] }
    requires resolved { IsResolved tree.now resolved.now }
    ensures { ChecksBodies tree.now result }
{
    let mut steps = Numbered::new(alloc);
    for number in 0..tree.steps.len() {
        let step = &tree.steps[number];
        let checked = check_step(alloc, tree, resolved, number)?;
        steps.push(step.name.text, checked)?;
    }
    Ok(steps)
}
