//! Marks at the instances that are done.
ghost use Rattle.std.specs.Prelude.{◌≡◌, IfOk, cond};
ghost use Rattle.maps.specs.Marked.{with_mark};
ghost use Rattle.instances.specs.MarkedDone.{AreDoneMarks, MarksOthers, is_over as ended};

use crate::standing::Standing;
use crate::step::Step;
use maps::{Hint, KeyWalk, MarkedMap};
use std::alloc::{AllocError, Global};
use terms::Key;

/// The marks of each step, none of whose instances that are done is marked.
pub(crate) fn done_maps(
    alloc: Global,
    steps: &[Step],
) -> Result<Vec<MarkedMap<'_, Standing>>, AllocError>
    ensures { IfOk result (λ maps. AreDoneMarks steps.now maps.items) }
{
    let mut maps = Vec::with_capacity(alloc, steps.len())?;
    for step in steps {
        match step.instances.done_marks(alloc) {
            Ok(marks) => maps.push_reserved(marks),
            Err(error) => return Err(error),
        }
    }
    Ok(maps)
}

/// Marks the instances that are not done, given a walk along all of them.
pub(crate) fn mark_others(marks: &mut MarkedMap<'_, Standing>, walk: KeyWalk<'_, Standing>)
    ensures { MarksOthers walk.entry marks.old marks.new }
{
    let mut hint = Hint::new();
    for (key, standing) in walk {
        mark_unless_over(marks, key, standing, &mut hint);
    }
}

// Marks an instance that is not done.
fn mark_unless_over(
    marks: &mut MarkedMap<'_, Standing>,
    key: Key,
    standing: Standing,
    hint: &mut Hint,
)
    ensures { marks.new ≡ cond (ended standing) marks.old (with_mark marks.old key) }
{
    if is_over(standing) {
        return;
    }
    let _before = marks.mark(key, hint);
}

// Whether an instance that stands so is done.
fn is_over(standing: Standing) -> bool
    ensures { result ≡ ended standing }
{
    matches!(standing, Standing::Done)
}
