//! The laws of events that are taken one after another. Each is a contract, with nothing to run.
ghost use Rattle.machine.specs.GroupLaws.{CutIsOfEnds, LegalFitInTurn, LegalInTurn, RoomInTurn, RunInTurn, TakenInTurn};

use graph::fitting;
use steptree::{ends_within_limits, keeps_to_its_sheet};
use terms::facts_are_told_apart;

/// Where there is room for the puts of several events, there is room for those of the first, and after it for the others.
pub fn room_in_turn()
    ensures { RoomInTurn }
{}

/// An instance that runs still runs after an event that does not end it.
pub fn run_in_turn()
    ensures { RunInTurn }
{}

/// Events that are taken one after another add the facts that they state, and nothing else.
pub fn taken_in_turn()
    ensures { TakenInTurn }
{
    facts_are_told_apart();
}

/// Of a legal list of events the first part is legal, and the second part after it.
pub fn legal_in_turn()
    ensures { LegalInTurn }
{
    facts_are_told_apart();
}

/// Events that are legal one after another fit one after another, and all their puts belong to the graph.
pub fn fit_in_turn()
    ensures { LegalFitInTurn }
{
    keeps_to_its_sheet();
    ends_within_limits();
    fitting();
}

/// What comes of some ends is no more than they are, and at least one; each ends the instance at its place.
pub fn cut_in_turn()
    ensures { CutIsOfEnds }
{}
