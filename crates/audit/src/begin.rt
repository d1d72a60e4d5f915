//! What the environment put is where a replay begins.
ghost use Rattle.machine.specs.Marked.{IsUnmarked};
ghost use Rattle.audit.specs.Replayed.{AreGivenItemsMarked, AreGivenTagsMarked, Grows, IsBegun, IsReplayed};

use machine::{Machine, Marks, reached_goes_on};
use maps::Hint;
use terms::{Producer, facts_are_told_apart};

/// Marks all that the environment put into the store.
pub(crate) fn begin(store: &Machine, marks: &mut Marks<'_>)
    requires { IsUnmarked store.now marks.old }
    ensures { IsReplayed store.now marks.new }
{
    facts_are_told_apart();
    reached_goes_on();
    store.is_kept();
    mark_items(store, marks);
    mark_tags(store, marks);
}

// Marks the items that the environment put.
fn mark_items(store: &Machine, marks: &mut Marks<'_>)
    requires { IsBegun store.now marks.old }
    ensures begun { IsBegun store.now marks.new }
    ensures items { AreGivenItemsMarked store.now marks.new }
{
    facts_are_told_apart();
    reached_goes_on();
    store.is_kept();
    let mut hint = Hint::new();
    for (addr, (_, producer)) in store.items() {
        match producer {
            Producer::Env => {
                marks.mark_item(addr, &mut hint);
            }
            Producer::By(_, _) => {}
        }
    }
}

// Marks the tags that the environment put.
fn mark_tags(store: &Machine, marks: &mut Marks<'_>)
    requires { IsBegun store.now marks.old }
    ensures begun { IsBegun store.now marks.new }
    ensures tags { AreGivenTagsMarked store.now marks.new }
    ensures grows { Grows marks.old marks.new }
{
    facts_are_told_apart();
    reached_goes_on();
    store.is_kept();
    let mut hint = Hint::new();
    for (tag, by_environment) in store.tags() {
        if by_environment {
            marks.mark_tag(tag, &mut hint);
        }
    }
}
