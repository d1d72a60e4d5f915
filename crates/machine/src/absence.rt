ghost use Rattle.std.specs.Prelude.{MatchBool, [], ◌∷◌};
ghost use Rattle.std.specs.List.{AllByRecursion};
ghost use Rattle.machine.specs.Absence.{AreAllAbsent, IsOneThere};
ghost use Rattle.machine.specs.Group.{IsDone, puts_of_all};

use crate::group::puts_of;
use items::Items;
use terms::{Event, Put};

/// Whether no item is at an address of the puts of these ends of instances that are done.
pub(crate) fn are_all_absent(items: &Items, ends: &[Event]) -> bool
    requires { AllByRecursion IsDone ends.now }
    ensures { MatchBool result (AreAllAbsent items.now (puts_of_all ends.now)) (IsOneThere items.now (puts_of_all ends.now)) }
{
    for number in 0..ends.len() {
        if !are_absent(items, puts_of(&ends[number])) {
            return false;
        }
    }
    true
}

/// Whether no item is at an address of these puts.
pub(crate) fn are_absent(items: &Items, puts: &[Put]) -> bool
    ensures { MatchBool result (AreAllAbsent items.now puts.now) (IsOneThere items.now puts.now) }
{
    for number in 0..puts.len() {
        if !is_absent(items, &puts[number]) {
            return false;
        }
    }
    true
}

// The same for one put.
fn is_absent(items: &Items, put: &Put) -> bool
    ensures { MatchBool result (AreAllAbsent items.now (put.now ∷ [])) (IsOneThere items.now (put.now ∷ [])) }
{
    match put {
        Put::Item(addr, _) => items.get(*addr).is_none(),
        Put::Tag(_) => true,
    }
}
