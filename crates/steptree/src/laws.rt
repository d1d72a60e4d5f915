//! The laws of what bodies mean. Each is a contract, with nothing to run.
ghost use Rattle.std.specs.Prelude.{◌≡◌};
ghost use Rattle.terms.specs.declared.key.TheConstants.{MAX_COMPONENTS};
ghost use Rattle.terms.specs.declared.put.TheConstants.{MOST_PUTS};
ghost use Rattle.steptree.specs.declared.body.TheConstants.{BUDGET};
ghost use Rattle.steptree.specs.declared.sheet.TheConstants.{MOST_COLLECTIONS};
ghost use Rattle.steptree.specs.declared.slot.TheConstants.{MOST_NAMES};
ghost use Rattle.steptree.specs.Sheet.{KeepsAtAnyReads};
ghost use Rattle.steptree.specs.Laws.{OneEnding, AsksInOrder, GrowthKeeps, LookUpGrowthKeeps, LookUpEnds, LookUpEndsOnce, PairsEndOnce, FewPuts, NoDoublePut, ReadsWithinBudget};

/// The limits of steps, as numbers.
pub fn limits()
    ensures budget { BUDGET ≡ 1000000 }
    ensures puts { MOST_PUTS ≡ 4096 }
    ensures components { MAX_COMPONENTS ≡ 4 }
    ensures names { MOST_NAMES ≡ 64 }
    ensures collections { MOST_COLLECTIONS ≡ 64 }
{}

/// Along one list of reads a body ends in at most one way, and it asks for the reads one after another.
pub fn along_one_list()
    ensures one { OneEnding }
    ensures in_order { AsksInOrder }
{}

/// A body reads at most 1,000,000 items, it gives at most 4,096 puts, and its fault is never a double put.
pub fn ends_within_limits()
    ensures reads { ReadsWithinBudget }
    ensures puts { FewPuts }
    ensures fault { NoDoublePut }
{}

/// If a body's statements get and put only what a sheet allows, it reads and puts nothing else, along any reads.
pub fn keeps_to_its_sheet()
    ensures { KeepsAtAnyReads }
{}

/// What a body gives, and its faults, stay the same when items are added.
pub fn growth_keeps()
    ensures pairs { GrowthKeeps }
    ensures look_up { LookUpGrowthKeeps }
{}

/// If each address has at most one value, a body ends in exactly one way.
pub fn ends_once()
    ensures some { LookUpEnds }
    ensures one { LookUpEndsOnce }
    ensures pairs { PairsEndOnce }
{}
