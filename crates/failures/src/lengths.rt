//! How long a file of a memory disk is.
ghost use Rattle.std.specs.Prelude.{◌≡◌, length, IfSome};
ghost use Rattle.disk.specs.MemDisk.{files_of};

use disk::{Disk, MemDisk, Side};

/// The length of a file, by a second call if the first one fails.
pub(crate) fn measured(disk: &mut MemDisk, side: Side) -> Option<u64>
    ensures { IfSome result (λ count. count ≡ length (files_of disk.new side).content) }
{
    match disk.len(side) {
        Ok(count) => Some(count),
        Err(_) => disk.len(side).ok(),
    }
}
