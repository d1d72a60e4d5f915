ghost use Rattle.std.specs.Prelude.{◌≡◌, ◌≢◌, false, IsTrue, IfOk, IfErr, IsErrOf, OnOk};
ghost use Rattle.disk.specs.Storage.{Errs, Reports, ReportsAs};
ghost use Rattle.disk.specs.declared.side.Side.{Side};
ghost use Rattle.disk.specs.File.{at_rest};
ghost use Rattle.disk.specs.Time.{HasCause};
ghost use Rattle.vault.specs.Store.{IsReady, disk_of_opening, answer_of};
ghost use Rattle.vault.specs.Opened.{OnlyReads, IsFound, IsFoundIn, IsSound, TellsWhy, IsOfOpening, contents_of, IsHeld, IsSoundStore, TellsWhyOn};
ghost use Rattle.vault.specs.declared.error.VaultError.TheVariants.{Device, NoMemory};
ghost use Rattle.disk.specs.declared.error.DiskError.TheVariants as DiskError;

use crate::found::{Found, found_in};
use crate::heads::live_side;
use crate::{Refused, Vault, VaultError};
use disk::{Disk, DiskError, Side};
use graph::Graph;
use holdings::Holdings;
use sides::{one_meaning_of_a_side, sides_go_on};
use std::alloc::Global;

/// An opened store: its vault, its graph, and what it holds.
#[derive(Drop)]
pub struct Recovered<D: Disk> {
    pub vault: Vault<D>,
    pub graph: Graph,
    pub holdings: Holdings,
}

/// Opens the store on two files, and reads what it holds.
///
/// Both files are synced first, so that every later crash leaves what was read. Nothing is written, whatever is returned.
/// `NotAStore` says that no side is open; `Damaged` names an open side, and the position of its first check that failed.
/// The heads come first: an open side of fewer than ten bytes (A before B, at its length), then two sides of one
/// generation (A, at 2). Such a fault, or that no side is open, is returned unless a call of the disk returns an error.
/// Then come the format of the live side (at 1), the length of its graph's text (at 10), that text (at 14), its image (at
/// the position of its length), and its journal (at the gate of the first record that is not whole and followed by a
/// gate, is no event, or does not fit, or where the journal's first byte is missing).
pub fn open<D: Disk>(alloc: Global, disk: D) -> Result<Recovered<D>, Refused<D>>
    ensures found { IsTrue D.is_honest → IfOk result (IsHeld D.files) }
    ensures ready { IsTrue D.is_honest → IfOk result (λ r. IsReady D.files r.vault) }
    ensures working { IfOk result (λ r. r.vault.halted ≡ false) }

    // The parts of what it gives fit together, on every disk.
    ensures sound { IfOk result IsSoundStore }

    // What a refusal says of the files.
    ensures tells { IsTrue D.is_honest → TellsWhyOn D.Disk disk (disk_of_opening result) (answer_of result) }

    // Reads return what they returned before, and a crash at any moment of the call, or after it, leaves what one might
    // have left before.
    ensures only_reads { IsTrue D.is_honest → OnlyReads D.Disk disk (disk_of_opening result) }

    ensures errors { IfErr result (λ refused. IsOfOpening refused.error) }
    ensures causes { ReportsAs D.Disk Device NoMemory disk (disk_of_opening result) (answer_of result) }
{
    sides_go_on();
    let mut disk = disk;
    match recover(alloc, &mut disk) {
        Ok(found) => {
            let Found {
                bytes: _,
                start: _,
                journal,
                generation,
                text,
                graph,
                holdings,
            } = found;
            let vault = Vault {
                disk,
                journal,
                generation,
                text,
                halted: false,
                laid: 0,
                buffer: Vec::new(alloc),
            };
            Ok(Recovered {
                vault,
                graph,
                holdings,
            })
        }
        Err(error) => Err(Refused { disk, error }),
    }
}

// Syncs both files, and reads what they stand for.
pub(crate) fn recover<D: Disk>(alloc: Global, disk: &mut D) -> Result<Found, VaultError>
    ensures found { IsTrue D.is_honest → IfOk result (IsFound (contents_of (D.files disk.old))) }
    ensures kept { IfOk result (λ found. IsFoundIn found.journal.side found.bytes.items found) }
    ensures sound { IfOk result (λ found. IsSound found.graph found.holdings found.generation found.journal.end found.text.items) }
    ensures rests { IsTrue D.is_honest → OnOk result ((side : Side) → D.files disk.new side ≡ at_rest (D.files disk.old side).content) }
    ensures tells { IsTrue D.is_honest → TellsWhy (contents_of (D.files disk.old)) (Errs D.Disk disk.old disk.new) result }
    ensures only_reads { IsTrue D.is_honest → OnlyReads D.Disk disk.old disk.new }
    ensures others { IfErr result IsOfOpening }
    ensures causes { ReportsAs D.Disk Device NoMemory disk.old disk.new result }
{
    settle(disk)?;
    look(alloc, disk)
}

// Syncs both files.
fn settle<D: Disk>(disk: &mut D) -> Result<(), DiskError>
    ensures rests { IsTrue D.is_honest → OnOk result ((side : Side) → D.files disk.new side ≡ at_rest (D.files disk.old side).content) }
    ensures only_reads { IsTrue D.is_honest → OnlyReads D.Disk disk.old disk.new }
    ensures reports { Reports D.Disk disk.old disk.new result }
{
    disk.sync(Side::A)?;
    disk.sync(Side::B)
}

// Reads what the files stand for.
fn look<D: Disk>(alloc: Global, disk: &mut D) -> Result<Found, VaultError>
    ensures found { IsTrue D.is_honest → IfOk result (IsFound (contents_of (D.files disk.old))) }
    ensures kept { IfOk result (λ found. IsFoundIn found.journal.side found.bytes.items found) }
    ensures sound { IfOk result (λ found. IsSound found.graph found.holdings found.generation found.journal.end found.text.items) }
    ensures tells { IsTrue D.is_honest → TellsWhy (contents_of (D.files disk.old)) (Errs D.Disk disk.old disk.new) result }
    ensures same { IsTrue D.is_honest → (each : Side) → D.files disk.new each ≡ D.files disk.old each }
    ensures only_reads { IsTrue D.is_honest → OnlyReads D.Disk disk.old disk.new }
    ensures others { IfErr result IsOfOpening }
    ensures causes { ReportsAs D.Disk Device NoMemory disk.old disk.new result }
{
    one_meaning_of_a_side();
    let side = live_side(disk)?;
    let bytes = read_whole(alloc, disk, side)?;
    found_in(alloc, side, bytes)
}

// All bytes of a file, as reads return them.
fn read_whole<D: Disk>(alloc: Global, disk: &mut D, side: Side) -> Result<Vec<u8>, DiskError>
    ensures value { IsTrue D.is_honest → IfOk result (λ bytes. bytes.items ≡ (D.files disk.old side).content) }
    ensures same { IsTrue D.is_honest → (each : Side) → D.files disk.new each ≡ D.files disk.old each }
    ensures only_reads { IsTrue D.is_honest → OnlyReads D.Disk disk.old disk.new }
    ensures cause { HasCause (D.failures disk.old) (D.failures disk.new) result }
    ensures refusals { D.refusals disk.new ≢ D.refusals disk.old → IsErrOf result DiskError.NoMemory }
{
    let count = disk.len(side)?;
    let mut bytes = vec![in alloc; 0; count as usize]?;
    disk.read(side, 0, &mut bytes)?;
    Ok(bytes)
}
