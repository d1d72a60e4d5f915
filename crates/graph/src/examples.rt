ghost use Rattle.graph.specs.Examples.{CanonicalExample};
ghost use Rattle.graph.specs.FitExample.{FittingExample};

/// A worked example of a canonical text, with nothing to run.
pub fn canonical_example()
    ensures { CanonicalExample }
{}

/// A worked example of events that fit one after another, with nothing to run.
pub fn fitting_example()
    ensures { FittingExample }
{}
