ghost use Rattle.std.specs.Prelude.{◌≡◌, ◌<◌, ◌^◌, [], length, map, IfOk, OnOk, replicate};
ghost use Rattle.std.specs.List.{AllByRecursion};
ghost use Rattle.graph.specs.Seen.{step_seen};
ghost use Rattle.graph.specs.Prescribed.{ArePrescriptions, numbers_of, with_step};

use crate::graph::Prescribed;
use crate::numbered::Numbered;
use std::alloc::{AllocError, Global};
use terms::{StepCollection, TagCollection};

/// `count` empty lists.
fn empty_lists(alloc: Global, count: usize) -> Result<Vec<Vec<StepCollection>>, AllocError>
    ensures { IfOk result (λ lists. numbers_of lists.items ≡ replicate count []) }
{
    let mut lists = Vec::new(alloc);
    for _list in 0..count {
        lists.push(Vec::new(alloc))?;
    }
    Ok(lists)
}

/// Adds a step to those that a tag collection prescribes.
fn add_step(
    lists: &mut Vec<Vec<StepCollection>>,
    tag: TagCollection,
    step: StepCollection,
) -> Result<(), AllocError>
    requires { tag.0 < length lists.old.items }
    ensures { OnOk result (numbers_of lists.new.items ≡ with_step (numbers_of lists.old.items) tag.0 step.0) }
{
    lists[tag.0 as usize].push(step)?;
    Ok(())
}

/// For each of `tags` tag collections, the steps that it prescribes, in ascending order.
pub(crate) fn prescriptions(
    alloc: Global,
    tags: usize,
    steps: &Numbered<Prescribed>,
) -> Result<Vec<Vec<StepCollection>>, AllocError>
    requires few { length steps.now < 2 ^ 16 }
    requires prescribed { AllByRecursion (λ entry. entry.1.prescriber.0 < tags) steps.now }
    ensures { IfOk result (λ lists. ArePrescriptions (map step_seen steps.now) tags (numbers_of lists.items)) }
{
    let mut lists = empty_lists(alloc, tags)?;
    for number in 0..steps.len() {
        if let Some(step) = steps.value(number) {
            add_step(&mut lists, step.prescriber, StepCollection(number as u16))?;
        }
    }
    Ok(lists)
}
