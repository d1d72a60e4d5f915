//! The marks of an instance that is replayed, and of its puts.
ghost use Rattle.std.specs.Prelude.{◌≡◌, true};
ghost use Rattle.terms.specs.declared.event.Event.TheVariants.{Done};
ghost use Rattle.terms.specs.Facts.{done, event_facts};
ghost use Rattle.machine.specs.Machine.{facts};
ghost use Rattle.machine.specs.Marked.{MarksMore};
ghost use Rattle.audit.specs.Replayed.{HasAll, MarksPut, MarksPuts};

use crate::hints::Hints;
use machine::Marks;
use terms::{Inst, Put, facts_are_told_apart};

/// Marks an instance, and all that its puts state.
pub(crate) fn mark_end(marks: &mut Marks<'_>, inst: Inst, puts: &[Put], hints: &mut Hints)
    requires done { facts marks.old.store (done inst) ≡ true }
    requires all { HasAll (facts marks.old.store) inst puts.now }
    ensures { MarksMore marks.old marks.new (event_facts (Done inst puts.now)) }
{
    facts_are_told_apart();
    let end = inst;
    marks.mark_done(end, &mut hints.done);
    mark_puts(marks, puts, hints);
}

// Marks what these puts of an instance state.
fn mark_puts(marks: &mut Marks<'_>, puts: &[Put], hints: &mut Hints)
    ensures { MarksPuts marks.old marks.new puts.now }
{
    facts_are_told_apart();
    for put in puts {
        mark_put(marks, put, hints);
    }
}

// Marks what a put of an instance states.
fn mark_put(marks: &mut Marks<'_>, put: &Put, hints: &mut Hints)
    ensures { MarksPut marks.old marks.new put.now }
{
    facts_are_told_apart();
    match put {
        Put::Item(addr, _) => {
            marks.mark_item(*addr, &mut hints.items);
        }
        Put::Tag(tag) => {
            marks.mark_tag(*tag, &mut hints.tags);
        }
    }
}
