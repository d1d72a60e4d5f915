ghost use Rattle.std.specs.Prelude.{◌≡◌, ◌<◌, ◌+◌, ◌^◌, true, false, [], ◌∷◌, length, IsTrue, IfOk, OnOk};
ghost use Rattle.disk.specs.Storage.{Leaves, Reports};
ghost use Rattle.disk.specs.File.{at_rest};
ghost use Rattle.disk.specs.declared.side.Side.{Side};
ghost use Rattle.disk.specs.declared.side.Side.TheVariants.{A, B};
ghost use Rattle.codec.specs.Spelling.{image_bytes};
ghost use Rattle.sides.specs.Side.{behind_gate};
ghost use Rattle.vault.specs.Calls.{IsCreated, IsNew, LeavesNonEmpty, RefusesToMake};
ghost use Rattle.vault.specs.Made.{AreNewFiles, IsMade};
ghost use Rattle.sides.specs.Reading.{IsCanonical};
ghost use Rattle.vault.specs.Store.{BComesFirst, disk_of, answer_of, empty, OneHasBytes, IfEmptyFiles, GetsOpened};
ghost use Rattle.vault.specs.Opened.{OnlyReads};
ghost use Rattle.sides.specs.declared.gate.TheConstants.{FORMAT};

use crate::{Refused, Vault, VaultError};
use codec::{Image, Instances, Items, Tags};
use disk::{Disk, DiskError, Side, write_synced};
use journal::Journal;
use sides::{OPEN, sides_go_on, spell_side};
use std::alloc::{AllocError, Global};

/// Makes a store without facts on two empty files. The text is the canonical text of its graph.
///
/// `Exists` says that a file is not empty. If one is not, both stay as they are, whatever is returned, and a crash at any
/// moment of the call leaves what one might have left before it. If both were empty, and nothing of A is on its way to the
/// disk, an error of the disk leaves A empty or B with its closed gate; nothing more is said of what they hold then. All
/// memory is asked for before the first call of the disk: if the call's own memory is refused, and not the disk's, the disk
/// is as it was.
pub fn create<D: Disk>(alloc: Global, disk: D, text: &[u8]) -> Result<Vault<D>, Refused<D>>
    requires { IsCanonical text.now }
    ensures created { IsTrue D.is_honest → IfOk result (IsCreated D.files text.now) }
    ensures new { IfOk result (IsNew text.now) }

    // If A is empty, and nothing of it is on its way to the disk, a crash at any moment leaves A empty, or B with its
    // closed gate.
    ensures begins { IsTrue D.is_honest → D.files disk A ≡ at_rest [] → Leaves D.Disk disk (disk_of result) BComesFirst }

    // Files that are not empty are left as they are.
    ensures non_empty { IsTrue D.is_honest → LeavesNonEmpty D.Disk disk (disk_of result) (answer_of result) }

    // Why it is refused.
    ensures refused { RefusesToMake D.Disk disk (disk_of result) (answer_of result) }
{
    sides_go_on();
    let mut disk = disk;
    match write_store(alloc, &mut disk, text) {
        Ok(
            Made {
                journal,
                kept,
                buffer,
            },
        ) => Ok(Vault {
            disk,
            journal,
            generation: 1,
            text: kept,
            halted: false,
            laid: 0,
            buffer,
        }),
        Err(error) => Err(Refused { disk, error }),
    }
}

// What a vault keeps of a store that was made.
#[derive(Drop)]
struct Made {
    journal: Journal,
    kept: Vec<u8>,
    buffer: Vec<u8>,
}

// Writes a store without facts on two empty files.
fn write_store<D: Disk>(alloc: Global, disk: &mut D, text: &[u8]) -> Result<Made, VaultError>
    requires { length text.now < 2 ^ 32 }
    ensures sides { IsTrue D.is_honest → OnOk result (AreNewFiles (D.files disk.new) text.now) }
    ensures made { IfOk result (IsMade text.now) }
    ensures begins { IsTrue D.is_honest → D.files disk.old A ≡ at_rest [] → Leaves D.Disk disk.old disk.new BComesFirst }
    ensures non_empty { IsTrue D.is_honest → LeavesNonEmpty D.Disk disk.old disk.new result }
    ensures refused { RefusesToMake D.Disk disk.old disk.new result }
{
    let kept = Vec::from_slice(alloc, text)?;
    let buffer = without_facts(alloc, text)?;
    if is_there(disk)? {
        return Err(VaultError::Exists);
    }
    write_sides(disk, &buffer)?;
    let end = buffer.len() as u64 - 1;
    Ok(Made {
        journal: Journal { side: Side::A, end },
        kept,
        buffer,
    })
}

// The first side of a store without facts, its gate closed.
fn without_facts(alloc: Global, text: &[u8]) -> Result<Vec<u8>, AllocError>
    requires { length text.now < 2 ^ 32 }
    ensures spelled { IfOk result (λ side. side.items ≡ 0 ∷ behind_gate FORMAT 1 text.now (image_bytes empty) (0 ∷ [])) }
    ensures count { IfOk result (λ side. length side.items ≡ length (1 ∷ behind_gate FORMAT 1 text.now (image_bytes empty) []) + 1) }
{
    let image = no_facts(alloc);
    let mut side = Vec::new(alloc);
    side.push(0)?;
    spell_side(&mut side, 1, text, &image)?;
    Ok(side)
}

// The image without facts.
fn no_facts(alloc: Global) -> Image
    ensures { result ≡ empty }
{
    Image {
        fault: None,
        items: Items::new(Vec::new(alloc)),
        tags: Tags::new(Vec::new(alloc)),
        done: Instances::new(Vec::new(alloc)),
    }
}

// Whether a file is not empty.
fn is_there<D: Disk>(disk: &mut D) -> Result<bool, DiskError>
    ensures empty { IsTrue D.is_honest → (side : Side) → IfOk result (λ some. some ≡ false → (D.files disk.old side).content ≡ []) }
    ensures there { IsTrue D.is_honest → IfOk result (λ some. some ≡ true → OneHasBytes (D.files disk.old)) }
    ensures same { IsTrue D.is_honest → (side : Side) → D.files disk.new side ≡ D.files disk.old side }
    ensures only_reads { IsTrue D.is_honest → OnlyReads D.Disk disk.old disk.new }
    ensures reports { Reports D.Disk disk.old disk.new result }
{
    let a = disk.len(Side::A)?;
    let b = disk.len(Side::B)?;
    Ok(a != 0 || b != 0)
}

// Writes both sides of a new store on empty files: B, closed; then A, closed at first, and opened when all of it is on
// the disk.
fn write_sides<D: Disk>(disk: &mut D, bytes: &[u8]) -> Result<(), DiskError>
    ensures a { IsTrue D.is_honest → GetsOpened bytes.now (D.files disk.old A) (D.files disk.new A) result }
    ensures b { IsTrue D.is_honest → (D.files disk.old B).content ≡ [] → OnOk result (D.files disk.new B ≡ at_rest (0 ∷ [])) }
    ensures begins { IsTrue D.is_honest → IfEmptyFiles (D.files disk.old) (Leaves D.Disk disk.old disk.new BComesFirst) }
    ensures reports { Reports D.Disk disk.old disk.new result }
{
    write_synced(disk, Side::B, 0, &[0])?;
    write_synced(disk, Side::A, 0, bytes)?;
    write_synced(disk, Side::A, 0, &[OPEN])
}
