use crate::Instances;

impl Instances {
    ghost use Rattle.instances.specs.There.{AreCounted, AreThereTogether};

    /// A law, with nothing to run: instances and the tags that prescribe them are there together.
    pub fn are_there_together(&self)
        ensures { AreThereTogether self.now }
    {
        let _ = &self.tags;
    }

    /// A law, with nothing to run: a count is 0 exactly when no instance is in a state that is counted.
    pub fn are_counted(&self)
        ensures { AreCounted self.now }
    {
        let _ = &self.tags;
    }
}
