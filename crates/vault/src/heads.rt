ghost use Rattle.std.specs.Prelude.{◌≡◌, None, length, IsTrue, IfOk, IfErr, IsErrOf};
ghost use Rattle.disk.specs.Storage.{Errs, Reports, ReportsAs};
ghost use Rattle.disk.specs.declared.side.Side.{Side};
ghost use Rattle.disk.specs.declared.side.Side.TheVariants.{A};
ghost use Rattle.sides.specs.Reading.{Tells};
ghost use Rattle.vault.specs.Store.{SaysNothing};
ghost use Rattle.vault.specs.Opened.{OnlyReads, IsGenerationOf, IsAhead, HeadsFault, StandsForNothing, IsOfOpening, contents_of, SaysCutShort, MeansNothing, ReturnsFault, ForGenerations, ErredOrCutShort, IfAlike, IsWholeFault};
ghost use Rattle.vault.specs.declared.error.VaultError.TheVariants.{Device, NoMemory, NotAStore, Damaged};

use crate::VaultError;
use disk::{Disk, DiskError, Side};
use sides::{Gate, HEAD, gate_of, one_meaning_of_a_side};

// The position in a side at which its generation begins.
const GENERATION: u64 = 2;

// The side that has a generation while the other one is closed or has a smaller one.
pub(crate) fn live_side<D: Disk>(disk: &mut D) -> Result<Side, VaultError>
    ensures ahead { IsTrue D.is_honest → IfOk result (IsAhead (contents_of (D.files disk.old))) }
    ensures nothing { IsTrue D.is_honest → IfErr result (MeansNothing (contents_of (D.files disk.old))) }
    ensures heads { IsTrue D.is_honest → ReturnsFault (contents_of (D.files disk.old)) (Errs D.Disk disk.old disk.new) result }
    ensures cause { IsTrue D.is_honest → IfErr result (λ error. SaysNothing error → HeadsFault (contents_of (D.files disk.old)) error) }
    ensures same { IsTrue D.is_honest → (each : Side) → D.files disk.new each ≡ D.files disk.old each }
    ensures only_reads { IsTrue D.is_honest → OnlyReads D.Disk disk.old disk.new }
    ensures others { IfErr result IsOfOpening }
    ensures causes { ReportsAs D.Disk Device NoMemory disk.old disk.new result }
{
    let a = generation_of(disk, Side::A)?;
    let b = generation_of(disk, Side::B)?;
    ahead(a, b)
}

// The generation of a side, or `None` if it is closed. A side that is open and too short to have one is damaged, at its end.
fn generation_of<D: Disk>(disk: &mut D, side: Side) -> Result<Option<u64>, VaultError>
    ensures generation { IsTrue D.is_honest → IfOk result (λ generation. IsGenerationOf generation (D.files disk.old side).content) }
    ensures nothing { IsTrue D.is_honest → IfErr result (MeansNothing (contents_of (D.files disk.old))) }
    ensures told { IsTrue D.is_honest → IfErr result (λ error. SaysNothing error → SaysCutShort side (D.files disk.old side).content error) }
    ensures short { IsTrue D.is_honest → IfErr result (ErredOrCutShort (Errs D.Disk disk.old disk.new) side (D.files disk.old side).content) }
    ensures same { IsTrue D.is_honest → (each : Side) → D.files disk.new each ≡ D.files disk.old each }
    ensures only_reads { IsTrue D.is_honest → OnlyReads D.Disk disk.old disk.new }
    ensures others { IfErr result IsOfOpening }
    ensures causes { ReportsAs D.Disk Device NoMemory disk.old disk.new result }
{
    one_meaning_of_a_side();
    let (gate, count) = head_of(disk, side)?;
    match gate {
        Gate::Closed => Ok(None),
        Gate::Short => Err(VaultError::Damaged(side, count)),
        Gate::Open(generation) => Ok(Some(generation)),
    }
}

// What the head of a file says, and how many bytes the file has.
fn head_of<D: Disk>(disk: &mut D, side: Side) -> Result<(Gate, u64), DiskError>
    ensures tells { IsTrue D.is_honest → IfOk result (λ head. Tells head.0 (D.files disk.old side).content) }
    ensures count { IsTrue D.is_honest → IfOk result (λ head. head.1 ≡ length (D.files disk.old side).content) }
    ensures same { IsTrue D.is_honest → (each : Side) → D.files disk.new each ≡ D.files disk.old each }
    ensures only_reads { IsTrue D.is_honest → OnlyReads D.Disk disk.old disk.new }
    ensures reports { Reports D.Disk disk.old disk.new result }
{
    let count = disk.len(side)?;
    let known = count.min(HEAD as u64) as usize;
    let mut head = [0; HEAD];
    disk.read(side, 0, &mut head[..known])?;
    Ok((gate_of(&head[..known]), count))
}

// Of two sides with these generations, `None` if closed, the one that is ahead.
fn ahead(a: Option<u64>, b: Option<u64>) -> Result<Side, VaultError>
    ensures ahead { ForGenerations a b (λ contents. IfOk result (IsAhead contents)) }
    ensures nothing { ForGenerations a b (λ contents. IfErr result (λ _. StandsForNothing contents)) }
    ensures cause { ForGenerations a b (λ contents. IfErr result (IsWholeFault contents)) }
    ensures closed { a ≡ None → b ≡ None → IsErrOf result NotAStore }
    ensures alike { ForGenerations a b (λ contents. IfAlike contents (IsErrOf result (Damaged A 2))) }
    ensures others { IfErr result IsOfOpening }
    ensures device { IsErrOf result Device → ⊥ }
{
    one_meaning_of_a_side();
    match (a, b) {
        (None, None) => Err(VaultError::NotAStore),
        (Some(_), None) => Ok(Side::A),
        (None, Some(_)) => Ok(Side::B),
        (Some(a), Some(b)) => {
            if a == b {
                return Err(VaultError::Damaged(Side::A, GENERATION));
            }
            Ok(if a > b { Side::A } else { Side::B })
        }
    }
}
