//! The laws of the meaning of a graph. Each is a contract, with nothing to run.
ghost use Rattle.graph.specs.FitLaws.{FitKeeps};
ghost use Rattle.machine.specs.Laws.{StaysWithin, QuietIsMeaning, QuietIsClean, StoppedIsMeant, StoppedOrQuiet, OneEnd, ListsGoOn, HasLegalParts, OneState, LegalFits, LegalFitsState, FitsAndMeant, FitKeepsOneItem, NewOrConflicting, CanGoOn};

use graph::fitting;
use steptree::{ends_once, ends_within_limits, keeps_to_its_sheet};
use terms::facts_are_told_apart;

/// After a legal list of events from the empty store, the facts are within the graph's meaning on what the environment put.
pub fn stays_within()
    ensures { StaysWithin }
{
    facts_are_told_apart();
}

/// If nothing is left to do, the facts are the meaning, and the meaning has no fault and no two items at one address.
pub fn quiet_is_meaning()
    ensures meaning { QuietIsMeaning }
    ensures clean { QuietIsClean }
{
    facts_are_told_apart();
    ends_once();
}

/// If a legal list ends in a fault, the meaning has that fault, and no legal list on its environment is quiet.
pub fn stopped_is_not_clean()
    ensures meant { StoppedIsMeant }
    ensures not_quiet { StoppedOrQuiet }
{
    facts_are_told_apart();
    ends_once();
}

/// If two legal lists are on one environment and leave nothing to do, they have the same facts, whatever their order.
pub fn one_end()
    ensures { OneEnd }
{
    facts_are_told_apart();
    ends_once();
}

/// A legal list and then one that is legal after it are a legal list; of a legal list the first part is legal, and the
/// second part after it. Only the set of facts before an event decides whether the event is legal.
pub fn legal_lists_go_on()
    ensures goes_on { ListsGoOn }
    ensures parts { HasLegalParts }
    ensures state { OneState }
{
    facts_are_told_apart();
}

/// Legal events fit, and events that fit and are meant are legal. After an event that fits, the state still fits.
pub fn legal_events_fit()
    ensures fit { LegalFits }
    ensures fit_state { LegalFitsState }
    ensures legal { FitsAndMeant }
    ensures keeps { FitKeeps }
    ensures one_item { FitKeepsOneItem }
{
    facts_are_told_apart();
    keeps_to_its_sheet();
    ends_within_limits();
    fitting();
}

/// After a legal list without a fault, each instance that is prescribed and not done is blocked, or some end of it is legal.
pub fn each_instance_can_go_on()
    ensures puts { NewOrConflicting }
    ensures instance { CanGoOn }
{
    facts_are_told_apart();
    ends_once();
}
