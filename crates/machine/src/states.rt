//! The laws of states, which use sets of facts instead of lists of events. Each is a contract, with nothing to run.
ghost use Rattle.machine.specs.StateLaws.{EmptyIsReached, ReachedGoesOn, ReachedTakes, LegalAsSet, ReachedIsWithin, ReachedHasOneItem, ReachedIsMeaning, OneMeaningEach, ReachedStoppedOrQuiet, ReachedCanGoOn, NeedsStays, QuietWaits};

use steptree::ends_once;
use terms::{facts_are_told_apart, facts_go_on};

/// The empty state is reached, and each legal list of events leads from a reached state to a reached state.
pub fn reached_goes_on()
    ensures empty { EmptyIsReached }
    ensures goes_on { ReachedGoesOn }
    ensures takes { ReachedTakes }
    ensures as_set { LegalAsSet }
{
    facts_are_told_apart();
    facts_go_on();
}

/// A reached state is within the meaning, and has no two items at one address.
pub fn reached_within()
    ensures within { ReachedIsWithin }
    ensures one_item { ReachedHasOneItem }
{
    facts_are_told_apart();
}

/// A state that is reached and quiet is the meaning; the meaning is then clean, and there is only one. If a reached state
/// has a fault, no state that is reached on its environment is quiet.
pub fn reached_and_quiet()
    ensures meaning { ReachedIsMeaning }
    ensures one { OneMeaningEach }
    ensures stopped { ReachedStoppedOrQuiet }
{
    facts_are_told_apart();
    ends_once();
}

/// About the instances that are prescribed and not done: in a reached state without a fault each is blocked or can end;
/// what an instance needs it needs until it is there; and in a state that is reached and quiet, the waiting ones are those
/// that the meaning leaves unfinished.
pub fn unfinished_wait()
    ensures can_go_on { ReachedCanGoOn }
    ensures stays { NeedsStays }
    ensures quiet { QuietWaits }
{
    facts_are_told_apart();
    ends_once();
}
