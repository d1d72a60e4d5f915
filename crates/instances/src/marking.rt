use crate::done_maps::done_maps;
use crate::{Instances, MarkedInstances, MarkedTags};
use maps::MarkedCollections;
use std::alloc::{AllocError, Global};

/// What is there, with marks: as long as these live, nothing of it changes.
impl Instances {
    ghost use Rattle.std.specs.Prelude.{IfOk};
    ghost use Rattle.maps.specs.Marked.{AreUnmarked};
    ghost use Rattle.instances.specs.MarkedDone.{NoneIsMarked};

    /// The tags, none of them marked.
    pub fn tag_marks(&self, alloc: Global) -> Result<MarkedTags<'_>, AllocError>
        ensures { IfOk result (AreUnmarked self.now.tags.items) }
    {
        match self.tags.marks(alloc) {
            Ok(marks) => Ok(MarkedTags { marks }),
            Err(error) => Err(error),
        }
    }

    /// The instances that are done, none of them marked.
    pub fn done_marks(&self, alloc: Global) -> Result<MarkedInstances<'_>, AllocError>
        ensures { IfOk result (NoneIsMarked self.now) }
    {
        match done_maps(alloc, &self.steps) {
            Ok(maps) => Ok(MarkedInstances {
                marks: MarkedCollections::of_maps(maps),
            }),
            Err(error) => Err(error),
        }
    }
}
