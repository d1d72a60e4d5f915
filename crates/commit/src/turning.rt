use crate::{Core, CoreError};
use disk::Disk;
use std::alloc::Global;
use vault::{VaultError, stores_go_on};

/// The number of bytes of an image that a turnover writes at once, at most.
const PIECE: usize = 1 << 16;

impl<D: Disk> Core<D> {
    ghost use Rattle.std.specs.Prelude.{IsTrue};
    ghost use Rattle.commit.specs.Turning.{TurnsAs};

    /// Turns over: writes the other side anew, one generation greater, with all that the store holds and no record, and
    /// makes it live. Returns the new generation. A store that a fault stopped is turned over too. The image goes to the disk piece by
    /// piece, and is in memory at no time.
    ///
    /// The causes of a refusal, in their order: `Halted`, `Full`. An error that does not halt leaves everything as it was.
    pub fn turn(&mut self, alloc: Global) -> Result<u64, CoreError>
        ensures { TurnsAs D.Disk self.old self.new result }
    {
        stores_go_on::<D>();
        if self.vault.is_halted() {
            return Err(CoreError::Store(VaultError::Halted));
        }
        let Ok(source) = self.machine.image_source(alloc) else {
            return Err(CoreError::Store(VaultError::NoMemory));
        };
        let Ok(mut buffer) = vec![in alloc; 0; PIECE] else {
            return Err(CoreError::Store(VaultError::NoMemory));
        };
        let turned = self.vault.turn_by(source, &mut buffer);
        drop(buffer);
        match turned {
            Ok(generation) => Ok(generation),
            Err(error) => Err(CoreError::Store(error)),
        }
    }
}
