ghost use Rattle.machine.specs.Taking.{TakingKeeps, GivenAreOfGraph};

use crate::unfinished_wait;
use graph::fitting;
use steptree::{ends_within_limits, keeps_to_its_sheet};
use terms::facts_are_told_apart;

/// A law, with nothing to run: after a legal event, a store holds what a store of its graph may hold.
pub(crate) fn taking_keeps()
    ensures { TakingKeeps }
{
    facts_are_told_apart();
    ends_within_limits();
    keeps_to_its_sheet();
    fitting();
    unfinished_wait();
}

/// A law, with nothing to run: what a body gives belongs to its graph, and is within the limit of puts.
pub fn given_are_of_graph()
    ensures { GivenAreOfGraph }
{
    ends_within_limits();
    keeps_to_its_sheet();
}
