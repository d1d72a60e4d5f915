ghost use Rattle.std.specs.Prelude.{◌≤◌, IsTrue, length};
ghost use Rattle.disk.specs.Storage.{Reports, WritesSynced};

use crate::{Disk, DiskError, Side};

/// Writes bytes from a position on, and syncs the file. After an error it is unspecified what reads give there.
pub fn write_synced<D: Disk>(
    disk: &mut D,
    side: Side,
    at: u64,
    bytes: &[u8],
) -> Result<(), DiskError>
    requires { IsTrue D.is_honest → at ≤ length (D.files disk.old side).content }
    ensures written { IsTrue D.is_honest → WritesSynced D.Disk side at bytes.now disk.old disk.new result }
    ensures reports { Reports D.Disk disk.old disk.new result }
{
    disk.write_at(side, at, bytes)?;
    disk.sync(side)
}
