ghost use Rattle.instances.specs.Running.{NoMoreRun, OneLessRuns, OneRuns};

/// A law, with nothing to run: the number of instances that run is determined by which of them run.
pub fn runs_are_counted()
    ensures no_more { NoMoreRun }
    ensures one_less { OneLessRuns }
    ensures one { OneRuns }
{}
