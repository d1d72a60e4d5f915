use crate::{Core, CoreError};
use disk::Disk;
use terms::Addr;
use vault::VaultError;

impl<D: Disk> Core<D> {
    ghost use Rattle.graph.specs.Fits.{AddressIsOf};
    ghost use Rattle.graph.specs.Graph.{EnvironmentMayGet};
    ghost use Rattle.machine.specs.Machine.{RefusesGet, RefusesRead};
    ghost use Rattle.commit.specs.Core.{graph};
    ghost use Rattle.commit.specs.Gets.{Gets};

    /// The value at an address, as the environment gets it; `None` if no item is there. It takes no memory.
    pub fn get(&self, addr: Addr) -> Result<Option<i64>, CoreError>
        ensures { Gets self.now (EnvironmentMayGet (graph self.now) addr) (RefusesGet (graph self.now) addr) addr result }
    {
        if self.vault.is_halted() {
            return Err(CoreError::Store(VaultError::Halted));
        }
        match self.machine.get(addr) {
            Ok(value) => Ok(value),
            Err(refusal) => Err(CoreError::Refused(refusal)),
        }
    }

    /// The value at an address of any collection of the graph, as a step reads it; `None` if no item is there. It takes
    /// no memory.
    pub fn read(&self, addr: Addr) -> Result<Option<i64>, CoreError>
        ensures { Gets self.now (AddressIsOf (graph self.now) addr) (RefusesRead (graph self.now) addr) addr result }
    {
        if self.vault.is_halted() {
            return Err(CoreError::Store(VaultError::Halted));
        }
        match self.machine.read(addr) {
            Ok(value) => Ok(value),
            Err(refusal) => Err(CoreError::Refused(refusal)),
        }
    }
}
