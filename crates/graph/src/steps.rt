ghost use Rattle.std.specs.Prelude.{◌≡◌, ◌++◌, [], length, IfOk, OnOk};
ghost use Rattle.steptree.specs.Statements.{texts};
ghost use Rattle.graph.specs.Faults.{fault_if, repeated};
ghost use Rattle.graph.specs.Numbered.{names_numbered};
ghost use Rattle.graph.specs.Placed.{Reports};
ghost use Rattle.graph.specs.Steps.{ArePlaces, components_by, prescribed_faults, ReportsSteps};
ghost use Rattle.graph.specs.Tree.{step_names};

use crate::fault::{GraphError, PlacedFault};
use crate::numbered::Numbered;
use crate::relations::Relations;
use std::alloc::{AllocError, Global};
use steptree::{Declared, Name, Step};
use terms::TagCollection;

/// The steps by their names, each with its number; of two steps with one name the first counts.
pub(crate) fn number_steps(alloc: Global, steps: &[Step<'_>]) -> Result<Numbered<usize>, AllocError>
    ensures { IfOk result (λ numbered. ArePlaces numbered (step_names steps.now)) }
{
    let mut numbered = Numbered::new(alloc);
    for (number, step) in steps.iter().enumerate() {
        if numbered.number(step.name.text).is_none() {
            numbered.push(step.name.text, number)?;
        }
    }
    Ok(numbered)
}

/// A fault at a name, if the condition holds.
fn refuse_if(holds: bool, error: GraphError, name: &Name<'_>) -> Result<(), PlacedFault>
    ensures { Reports (fault_if holds error name.now.place) result }
{
    if holds {
        return Err(PlacedFault {
            error,
            position: name.place,
        });
    }
    Ok(())
}

/// Adds names of a step; a name that is already there is a fault.
fn add_names(names: &mut Numbered<()>, more: &[Name<'_>]) -> Result<(), PlacedFault>
    ensures faults { Reports (repeated (names_numbered names.old) more.now) result }
    ensures added { OnOk result (names_numbered names.new ≡ names_numbered names.old ++ texts more.now) }
{
    for name in more {
        refuse_if(
            names.number(name.text).is_some(),
            GraphError::Redeclared,
            name,
        )?;
        names.push(name.text, ())?;
    }
    Ok(())
}

/// Whether the names of a step differ; the fault is at the first name that repeats an earlier one.
fn names_differ(alloc: Global, step: &Step<'_>) -> Result<(), PlacedFault>
    ensures { Reports (repeated [] (step.now.parameters.items ++ step.now.variables.items)) result }
{
    let mut names = Numbered::new(alloc);
    add_names(&mut names, &step.parameters)?;
    add_names(&mut names, &step.variables)
}

/// Whether a step has one text only, is prescribed, and has as many parameters as its tags have components.
fn is_prescribed(step: &Step<'_>, twice: bool, components: Option<usize>) -> Result<(), PlacedFault>
    ensures { Reports (prescribed_faults twice components step.now) result }
{
    refuse_if(twice, GraphError::StepTwice, &step.name)?;
    match components {
        None => refuse_if(true, GraphError::NoPrescriber, &step.name),
        Some(components) => refuse_if(
            components != step.parameters.len(),
            GraphError::Arity,
            &step.name,
        ),
    }
}

/// The number of components of the tags that prescribe a step.
fn components(tags: &[Declared<'_>], prescriber: Option<TagCollection>) -> Option<usize>
    ensures { result ≡ components_by tags.now prescriber }
{
    match prescriber {
        Some(tag) => match tags.get(tag.0 as usize) {
            Some(declared) => Some(declared.components),
            None => None,
        },
        None => None,
    }
}

/// Whether each step has one text only, is prescribed, has as many parameters as its tags have components, and has names that
/// differ; or the first fault.
pub(crate) fn check_steps(
    alloc: Global,
    tags: &[Declared<'_>],
    relations: &Relations,
    numbered: &Numbered<usize>,
    steps: &[Step<'_>],
) -> Result<(), PlacedFault>
    requires { length relations.now.prescribers.items ≡ length steps.now }
    ensures { ReportsSteps tags.now relations.now numbered.now steps.now result }
{
    for (number, step) in steps.iter().enumerate() {
        let twice = numbered.get(step.name.text).copied() != Some(number);
        let components = components(tags, relations.prescribers[number]);
        is_prescribed(step, twice, components)?;
        names_differ(alloc, step)?;
    }
    Ok(())
}
