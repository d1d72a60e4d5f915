ghost use Rattle.std.specs.Prelude.{◌≡◌, ◌<◌, ◌^◌, length, IfOk, IfSome, OnOk};
ghost use Rattle.graph.specs.Placed.{Reports};
ghost use Rattle.graph.specs.Relations.{prescription_faults, IsUnmarked, RelatesOne, RelatesTree};
ghost use Rattle.graph.specs.Marks.{with_prescriber};

use crate::fault::{GraphError, PlacedFault};
use crate::numbered::Numbered;
use crate::tables::{environment, known, no_marks, put, read};
use std::alloc::{AllocError, Global};
use steptree::Name;
use syntax::Relation;
use terms::TagCollection;

/// The numbers of the collections by their names. Of two steps with one name the first counts.
#[derive(Clone, Copy)]
pub(crate) struct Numbers<'b> {
    pub(crate) items: &'b Numbered<usize>,
    pub(crate) tags: &'b Numbered<usize>,
    pub(crate) steps: &'b Numbered<usize>,
}

/// The relations so far, by the numbers of the collections.
pub(crate) struct Relations {
    pub(crate) prescribers: Vec<Option<TagCollection>>,
    pub(crate) reads: Vec<Vec<bool>>,
    pub(crate) item_puts: Vec<Vec<bool>>,
    pub(crate) tag_puts: Vec<Vec<bool>>,
    pub(crate) environment_item_puts: Vec<bool>,
    pub(crate) environment_tag_puts: Vec<bool>,
    pub(crate) environment_gets: Vec<bool>,
}

impl Drop for Relations {
    // Written by hand, so that it is one call wherever relations are dropped.
    fn drop(self) {
        let Relations {
            prescribers: _,
            reads: _,
            item_puts: _,
            tag_puts: _,
            environment_item_puts: _,
            environment_tag_puts: _,
            environment_gets: _,
        } = self;
    }
}

/// A prescription, by the numbers of its tag collection and its step.
fn prescribe(
    prescribers: &mut Vec<Option<TagCollection>>,
    tag: Option<usize>,
    tag_name: &Name<'_>,
    step: Option<usize>,
    step_name: &Name<'_>,
) -> Result<(), PlacedFault>
    requires { IfSome tag (λ number. number < 2 ^ 16) }
    ensures faults { Reports (prescription_faults prescribers.old.items tag tag_name.now step step_name.now) result }
    ensures prescribed { OnOk result (prescribers.new.items ≡ with_prescriber prescribers.old.items step tag) }
{
    known(tag, GraphError::UnknownName, tag_name)?;
    known(step, GraphError::StepMissing, step_name)?;
    if let Some(number) = tag {
        if let Some(place) = step {
            if place < prescribers.len() {
                if prescribers[place].is_some() {
                    return Err(PlacedFault {
                        error: GraphError::TwoPrescribers,
                        position: step_name.place,
                    });
                }
                prescribers[place] = Some(TagCollection(number as u16));
            }
        }
    }
    Ok(())
}

impl Relations {
    /// What the environment may put, items and tags, and what it may get.
    pub(crate) fn into_environment(self) -> (Vec<bool>, Vec<bool>, Vec<bool>)
        ensures { result ≡ (self.environment_item_puts, self.environment_tag_puts, self.environment_gets) }
    {
        let Relations {
            prescribers: _,
            reads: _,
            item_puts: _,
            tag_puts: _,
            environment_item_puts,
            environment_tag_puts,
            environment_gets,
        } = self;
        (
            environment_item_puts,
            environment_tag_puts,
            environment_gets,
        )
    }

    /// Adds one relation, or returns the first of its faults.
    fn relate(&mut self, numbers: &Numbers<'_>, relation: &Relation<'_>) -> Result<(), PlacedFault>
        requires { length numbers.now.tags.now < 2 ^ 16 }
        ensures { RelatesOne numbers.now relation.now self.old self.new result }
    {
        match relation {
            Relation::Prescribes { tag, step } => prescribe(
                &mut self.prescribers,
                numbers.tags.number(tag.text),
                tag,
                numbers.steps.get(step.text).copied(),
                step,
            ),
            Relation::Reads { place, item, step } => read(
                &mut self.reads,
                *place,
                numbers.items.number(item.text),
                item,
                numbers.steps.get(step.text).copied(),
                step,
            ),
            Relation::PutsItem { place, step, item } => put(
                &mut self.item_puts,
                *place,
                numbers.steps.get(step.text).copied(),
                step,
                numbers.items.number(item.text),
                item,
            ),
            Relation::PutsTag { place, step, tag } => put(
                &mut self.tag_puts,
                *place,
                numbers.steps.get(step.text).copied(),
                step,
                numbers.tags.number(tag.text),
                tag,
            ),
            Relation::EnvironmentPutsItem { place, item } => environment(
                &mut self.environment_item_puts,
                *place,
                numbers.items.number(item.text),
                item,
            ),
            Relation::EnvironmentPutsTag { place, tag } => environment(
                &mut self.environment_tag_puts,
                *place,
                numbers.tags.number(tag.text),
                tag,
            ),
            Relation::EnvironmentGets { place, item } => environment(
                &mut self.environment_gets,
                *place,
                numbers.items.number(item.text),
                item,
            ),
        }
    }
}

/// No relations, for these numbers of item, tag and step collections.
fn none(alloc: Global, items: usize, tags: usize, steps: usize) -> Result<Relations, AllocError>
    ensures { IfOk result (λ them. IsUnmarked items tags steps them) }
{
    Ok(Relations {
        prescribers: vec![in alloc; None; steps]?,
        reads: no_marks(alloc, steps, items)?,
        item_puts: no_marks(alloc, steps, items)?,
        tag_puts: no_marks(alloc, steps, tags)?,
        environment_item_puts: vec![in alloc; false; items]?,
        environment_tag_puts: vec![in alloc; false; tags]?,
        environment_gets: vec![in alloc; false; items]?,
    })
}

/// The relations of a tree, by the numbers of its collections, or the first of their faults.
pub(crate) fn relate_all(
    alloc: Global,
    numbers: &Numbers<'_>,
    steps: usize,
    relations: &[Relation<'_>],
) -> Result<Relations, PlacedFault>
    requires { length numbers.now.tags.now < 2 ^ 16 }
    ensures { RelatesTree numbers.now steps relations.now result }
{
    let mut them = none(alloc, numbers.items.len(), numbers.tags.len(), steps)?;
    for relation in relations {
        them.relate(numbers, relation)?;
    }
    Ok(them)
}
