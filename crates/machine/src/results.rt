//! What the result of a body means over the items of a store. It is a contract, with nothing to run.
ghost use Rattle.machine.specs.Results.{GivesAlong, FaultsAlong, NeedsAlong, ReadsStay};

/// If all that a body read is in the store, its result is what the body means there: it gives these puts, is at fault, or
/// needs the item that it asks for if that is not there. What was read stays there.
pub fn results_are_meant()
    ensures gives { GivesAlong }
    ensures faults { FaultsAlong }
    ensures needs { NeedsAlong }
    ensures stay { ReadsStay }
{}
