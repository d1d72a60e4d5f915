ghost use Rattle.std.specs.Prelude.{IsTrue, IfOk, IfErr};
ghost use Rattle.disk.specs.Storage.{Errs, ReportsAs};
ghost use Rattle.vault.specs.LiveSides.{IsLiveSide, IsSideOf};
ghost use Rattle.vault.specs.Opened.{OnlyReads, TellsWhy, IsOfOpening, contents_of};
ghost use Rattle.vault.specs.declared.error.VaultError.TheVariants.{Device, NoMemory};

use crate::VaultError;
use crate::found::Found;
use crate::opening::recover;
use disk::Disk;
use graph::Graph;
use std::alloc::Global;

/// The live side of a store, as it was read.
#[derive(Drop)]
pub struct LiveSide {
    pub graph: Graph,
    /// All bytes of its file.
    pub bytes: Vec<u8>,
    /// The position where its journal begins.
    pub start: u64,
}

/// Reads the live side of the store on two files, for a caller that looks at its journal.
///
/// It makes the calls that `open` makes, and its errors are those of `open`.
pub fn read_live<D: Disk>(alloc: Global, disk: &mut D) -> Result<LiveSide, VaultError>
    ensures found { IsTrue D.is_honest → IfOk result (IsLiveSide (contents_of (D.files disk.old))) }
    ensures read { IfOk result IsSideOf }
    ensures tells { IsTrue D.is_honest → TellsWhy (contents_of (D.files disk.old)) (Errs D.Disk disk.old disk.new) result }
    ensures only_reads { IsTrue D.is_honest → OnlyReads D.Disk disk.old disk.new }
    ensures errors { IfErr result IsOfOpening }
    ensures causes { ReportsAs D.Disk Device NoMemory disk.old disk.new result }
{
    match recover(alloc, disk) {
        Ok(found) => {
            let Found {
                bytes,
                start,
                journal: _,
                generation: _,
                text: _,
                graph,
                holdings: _,
            } = found;
            Ok(LiveSide {
                graph,
                bytes,
                start,
            })
        }
        Err(error) => Err(error),
    }
}
