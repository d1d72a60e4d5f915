ghost use Rattle.terms.specs.Sets.{OneFact, AmongBoth};
ghost use Rattle.terms.specs.Facts.{FactsGoOn, EnvironmentGoesOn, EnvironmentIsStated, FactsOfExample, EnvironmentOfExample, NumbersOfPuts};

/// A law, with nothing to run: what two lists of events state, one after the other.
pub fn facts_go_on()
    ensures all { FactsGoOn }
    ensures environment { EnvironmentGoesOn }
{}

/// A law, with nothing to run: what the environment put is part of what the events state.
pub fn environment_is_stated()
    ensures { EnvironmentIsStated }
{}

/// A law, with nothing to run: facts can be distinguished, and so lists of facts are sets.
pub fn facts_are_told_apart()
    ensures one { OneFact }
    ensures among { AmongBoth }
{}

/// Worked examples, with nothing to run: an item of the environment, and an instance that is done with two puts; and
/// how the puts of an instance are numbered.
pub fn examples_of_facts()
    ensures all { FactsOfExample }
    ensures environment { EnvironmentOfExample }
    ensures numbers { NumbersOfPuts }
{}
