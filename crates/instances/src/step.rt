use crate::step_instances::StepInstances;
use std::alloc::AllocError;
use terms::{Tag, TagCollection};

/// The instances of a step, and the tag collection that prescribes them.
#[derive(Drop)]
pub(crate) struct Step {
    pub(crate) prescriber: TagCollection,
    pub(crate) instances: StepInstances,
}

impl Step {
    ghost use Rattle.std.specs.Prelude.{◌≡◌, ◌==◌, ◌<◌, ◌≤◌, OnErr, OnOk, cond, min};
    ghost use Rattle.instances.specs.Known.{CanTake, GrownStep, with_instance};

    /// Adds the instance that a tag prescribes, if it prescribes one of this step.
    pub(crate) fn prescribe(&mut self, tag: Tag)
        requires { CanTake tag self.old }
        ensures { self.new ≡ with_instance tag self.old }
    {
        if self.prescriber == tag.collection {
            self.instances.add(tag.key, false);
        }
    }

    /// The smaller of `room` and the room of this step if the collection prescribes the step, else `room`.
    pub(crate) fn least(&self, collection: TagCollection, room: usize) -> usize
        ensures { result ≡ cond (self.now.prescriber.0 == collection.0) (min room self.now.instances.room) room }
    {
        if self.prescriber == collection {
            room.min(self.instances.room())
        } else {
            room
        }
    }

    /// Makes room for `count` more instances, if the collection prescribes this step.
    pub(crate) fn make_room(
        &mut self,
        collection: TagCollection,
        count: usize,
    ) -> Result<(), AllocError>
        ensures ok { OnOk result (self.new.prescriber.0 ≡ collection.0 → count ≤ self.new.instances.room) }
        ensures grows { GrownStep collection.0 self.old self.new }
        ensures refused { OnErr result ((self.old.prescriber.0 ≡ collection.0) × (self.old.instances.room < count)) }
    {
        if self.prescriber == collection {
            self.instances.make_room(count)
        } else {
            Ok(())
        }
    }
}
