ghost use Rattle.std.specs.Prelude.{◌≡◌, ◌≢◌, ◌<◌, ◌^◌, ◌∷◌, [], length, IsTrue, IfOk, OnOk};
ghost use Rattle.disk.specs.Storage.{KeepsFiles, Leaves, Reports};
ghost use Rattle.disk.specs.Time.{OtherStays, OtherMayBe};
ghost use Rattle.vault.specs.Stands.{other_side};
ghost use Rattle.vault.specs.Turned.{WritesAnew, Rests, RestsShut, HasAfterGate, HasBehindGate, MayShut, LeavesShut, TellsShut};

use codec::ImageSource;
use disk::{Disk, DiskError, Side, write_synced};
use sides::OPEN;

pub(crate) fn other(side: Side) -> Side
    ensures { result ≡ other_side side }
{
    match side {
        Side::A => Side::B,
        Side::B => Side::A,
    }
}

/// Writes a side anew: an open gate and the bytes of a source after it, which go through the buffer. All of its file is on the disk
/// before. Until the gate is opened, at the end, the file is the old one or begins with a gate that is not open.
pub(crate) fn write_side<D: Disk, S: ImageSource + Drop>(
    disk: &mut D,
    side: Side,
    behind: S,
    buffer: &mut [u8],
) -> Result<(), DiskError>
    requires rests { IsTrue D.is_honest → Rests (D.files disk.old side) }
    requires room { 0 < length buffer.old }
    requires few { length (S.left behind) < 2 ^ 63 }
    ensures written { IsTrue D.is_honest → WritesAnew D.Disk side (1 ∷ S.left behind) disk.old disk.new result }
    ensures reports { Reports D.Disk disk.old disk.new result }
{
    close_gate(disk, side)?;
    write_behind(disk, side, behind, buffer)?;
    write_synced(disk, side, 0, &[OPEN])
}

// Writes the bytes of a source, and no others, after a gate that is not open. At each moment the gate is there, and not open.
fn write_behind<D: Disk, S: ImageSource + Drop>(
    disk: &mut D,
    side: Side,
    behind: S,
    buffer: &mut [u8],
) -> Result<(), DiskError>
    requires shut { IsTrue D.is_honest → RestsShut (D.files disk.old side) }
    requires room { 0 < length buffer.old }
    requires few { length (S.left behind) < 2 ^ 63 }
    ensures written { IsTrue D.is_honest → OnOk result (HasBehindGate (D.files disk.new side) (S.left behind)) }
    ensures other { IsTrue D.is_honest → OtherStays side (D.files disk.old) (D.files disk.new) }
    ensures any_moment { IsTrue D.is_honest → LeavesShut D.Disk side disk.old disk.new }
    ensures reports { Reports D.Disk disk.old disk.new result }
{
    disk.cut(side, 1)?;
    write_pieces(disk, side, behind, buffer)?;
    disk.sync(side)
}

// Writes the bytes of a source at the end of a file that has a gate alone, piece by piece, as the buffer has room. At each moment
// that gate is there, and not open.
fn write_pieces<D: Disk, S: ImageSource + Drop>(
    disk: &mut D,
    side: Side,
    behind: S,
    buffer: &mut [u8],
) -> Result<(), DiskError>
    requires shut { IsTrue D.is_honest → HasAfterGate (D.files disk.old side) [] }
    requires room { 0 < length buffer.old }
    requires few { length (S.left behind) < 2 ^ 63 }
    ensures written { IsTrue D.is_honest → OnOk result (HasAfterGate (D.files disk.new side) (S.left behind)) }
    ensures other { IsTrue D.is_honest → OtherStays side (D.files disk.old) (D.files disk.new) }
    ensures any_moment { IsTrue D.is_honest → LeavesShut D.Disk side disk.old disk.new }
    ensures reports { Reports D.Disk disk.old disk.new result }
{
    let mut behind = behind;
    let mut at = 1u64;
    loop {
        let count = behind.piece(buffer);
        if count == 0 {
            return Ok(());
        }
        disk.write_at(side, at, &buffer[..count])?;
        at += count as u64;
    }
}

// Closes the gate of a file, all of which is on the disk. An empty file gets a closed gate; in another nothing else changes.
fn close_gate<D: Disk>(disk: &mut D, side: Side) -> Result<(), DiskError>
    requires { IsTrue D.is_honest → Rests (D.files disk.old side) }
    ensures shut { IsTrue D.is_honest → OnOk result (RestsShut (D.files disk.new side)) }
    ensures other { IsTrue D.is_honest → OtherStays side (D.files disk.old) (D.files disk.new) }
    ensures any_moment { IsTrue D.is_honest → (D.files disk.old side).content ≢ [] → Leaves D.Disk disk.old disk.new
        (λ contents. MayShut (D.files disk.old side).content (contents side) × OtherMayBe side (D.files disk.old) contents) }
    ensures reports { Reports D.Disk disk.old disk.new result }
{
    if is_shut(disk, side)? {
        return Ok(());
    }
    write_synced(disk, side, 0, &[0])
}

// Whether a file begins with a gate that is not open.
fn is_shut<D: Disk>(disk: &mut D, side: Side) -> Result<bool, DiskError>
    ensures shut { IsTrue D.is_honest → IfOk result (TellsShut (D.files disk.old side).content) }
    ensures kept { IsTrue D.is_honest → KeepsFiles D.Disk disk.old disk.new }
    ensures reports { Reports D.Disk disk.old disk.new result }
{
    if disk.len(side)? == 0 {
        return Ok(false);
    }
    let mut first = [0];
    disk.read(side, 0, &mut first)?;
    Ok(first[0] != OPEN)
}
