use crate::Core;
use disk::Disk;

impl<D: Disk> Core<D> {
    ghost use Rattle.std.specs.Prelude.{IsTrue};
    ghost use Rattle.commit.specs.Kept.{Keeps};

    /// A law, with nothing to run: what a core keeps from call to call.
    pub fn is_kept(&self)
        ensures { Keeps D.Disk self.now }
    {
        self.machine.is_kept();
    }
}
