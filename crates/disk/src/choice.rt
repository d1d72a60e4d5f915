ghost use Rattle.std.specs.Prelude.{◌≡◌, IfOk};
ghost use Rattle.disk.specs.Calls.{durable_of, file_after};
ghost use Rattle.disk.specs.Choice.{chosen, painted};
ghost use Rattle.disk.specs.File.{AreBytes};

use crate::Side;
use crate::crash::{any_touches, last_sync};
use crate::record::Call;
use std::alloc::{AllocError, Global};

/// What a crash makes of each byte that was written or cut since the last sync.
#[derive(Clone, Copy, Debug, PartialEq, Eq)]
pub enum Choice {
    /// As it was synced. The file is as long as it was then.
    Synced,
    /// As it was written. The file is what reads give.
    Written,
    /// This byte. The file is as long as reads find it.
    Byte(u8),
}

/// What a choice makes of a file after these calls, of which reads give this content.
pub(crate) fn choose(
    alloc: Global,
    calls: &[Call],
    side: Side,
    content: &[u8],
    choice: Choice,
) -> Result<Vec<u8>, AllocError>
    ensures chosen { IfOk result (λ bytes. bytes.items ≡ chosen choice (file_after content.now calls.now side)) }
    ensures bytes { IfOk result (λ bytes. AreBytes bytes.items) }
{
    match choice {
        Choice::Synced => copy(alloc, last_sync(calls, side).0),
        Choice::Written => copy(alloc, content),
        Choice::Byte(byte) => paint(alloc, calls, side, content, byte),
    }
}

// The same bytes.
fn copy(alloc: Global, bytes: &[u8]) -> Result<Vec<u8>, AllocError>
    ensures same { IfOk result (λ copy. copy.items ≡ bytes.now) }
    ensures bytes { IfOk result (λ copy. AreBytes copy.items) }
{
    bytes.to_vec(alloc)
}

// The content, with this byte at each position that is touched.
fn paint(
    alloc: Global,
    calls: &[Call],
    side: Side,
    content: &[u8],
    byte: u8,
) -> Result<Vec<u8>, AllocError>
    ensures painted { IfOk result (λ bytes. bytes.items ≡ painted (durable_of calls.now side).touched byte 0 content.now) }
    ensures bytes { IfOk result (λ bytes. AreBytes bytes.items) }
{
    let (synced, since) = last_sync(calls, side);
    let mut bytes = Vec::with_capacity(alloc, content.len())?;
    for (position, written) in content.iter().enumerate() {
        let touched = any_touches(synced, side, since, position as u64);
        bytes.push(if touched { byte } else { *written })?;
    }
    Ok(bytes)
}
