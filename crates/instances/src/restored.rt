ghost use Rattle.std.specs.Prelude.{◌≤◌, ◌^◌, IfOk, length};
ghost use Rattle.instances.specs.RestoredSteps.{AreRestoredSteps, HasRestored};

use crate::ended::Ended;
use crate::step::Step;
use crate::step_instances::StepInstances;
use maps::CollectionMap;
use std::alloc::{AllocError, Global};
use terms::TagCollection;

/// For each of the `prescribers` a step with the instances that its tags prescribe: as done if they are among `ended`, else as ready.
pub(crate) fn restored_steps(
    alloc: Global,
    tags: &CollectionMap<bool>,
    ended: &CollectionMap<()>,
    prescribers: &[TagCollection],
) -> Result<Vec<Step>, AllocError>
    requires { length prescribers.now ≤ 2 ^ 16 }
    ensures { IfOk result (λ steps. AreRestoredSteps tags.now.items ended.now.items 0 prescribers.now steps.items) }
{
    let mut steps = Vec::with_capacity(alloc, prescribers.len())?;
    for number in 0..prescribers.len() {
        let prescriber = prescribers[number];
        let instances = restored_instances(alloc, tags, ended, prescriber, number as u16)?;
        steps.push(Step {
            prescriber,
            instances,
        })?;
    }
    Ok(steps)
}

// The instances of the step with this number. Tags and ended instances are both in order, so each of the tags takes one comparison in
// each of the two, and no search.
fn restored_instances(
    alloc: Global,
    tags: &CollectionMap<bool>,
    ended: &CollectionMap<()>,
    prescriber: TagCollection,
    number: u16,
) -> Result<StepInstances, AllocError>
    ensures { IfOk result (λ instances. HasRestored tags.now.items ended.now.items prescriber.0 number instances.states) }
{
    let mut instances = StepInstances::new(alloc);
    let mut ended = Ended::new(ended.walk_of(number));
    for ((_, key), _) in tags.walk_of(prescriber.0) {
        let is_done = ended.reaches(number, key);
        instances.make_room(1)?;
        instances.add(key, is_done);
    }
    Ok(instances)
}
