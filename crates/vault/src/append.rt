ghost use Rattle.std.specs.Prelude.{◌≡◌, ◌≢◌, ◌≤◌, ◌<◌, ◌+◌, ◌^◌, ◌⊎◌, ◌↔◌, ◌∷◌, [], false, length, IsTrue};
ghost use Rattle.std.specs.List.{AllByRecursion};
ghost use Rattle.codec.specs.Spelling.{HasFewPuts};
ghost use Rattle.journal.specs.declared.error.JournalError.TheVariants as JournalError;
ghost use Rattle.journal.specs.declared.journal.TheConstants.{LIMIT};
ghost use Rattle.vault.specs.Calls.{AppendsAs, AreNotDue, LaysBehind};
ghost use Rattle.vault.specs.Store.{IsReady};
ghost use Rattle.vault.specs.declared.append.TheConstants.{FIRST_GROUND, GROUND};
ghost use Rattle.vault.specs.declared.error.VaultError.TheVariants.{NoMemory, Full};

use crate::groups::spell_records;
use crate::{Vault, VaultError};
use disk::Disk;
use graph::fitting;
use journal::{AppendError, JournalError, LIMIT};
use sides::sides_go_on;
use std::array;
use terms::Event;

/// An append lays no zeros, for the next records to be written over, while the closed gate that follows its records is below this
/// position.
pub const FIRST_GROUND: u64 = 65_536;

// The number of zeros that are laid at once. Records that are longer than half of it lay none, since few would go over them.
const GROUND: u64 = 65_536;

impl<D: Disk> Vault<D> {
    /// Appends the commit of one event that fits what the store holds, as `append_all` does: with the same errors, and the same after
    /// each of them.
    pub fn append(&mut self, event: &Event) -> Result<(), VaultError>
        requires puts { HasFewPuts event.now }
        requires store { IsTrue D.is_honest → self.old.halted ≡ false → IsReady D.files self.old }
        ensures { AppendsAs D.Disk self.old self.new (event.now ∷ []) result }
    {
        self.append_all(array::from_ref(event))
    }

    /// Appends a commit of events that fit, one after another, what the store holds. After `Ok` it is acknowledged: every crash leaves
    /// all of it. A crash before leaves all of it or nothing, however many records it takes: there are up to 64 events in each.
    ///
    /// The vault halts exactly if a call of the disk returned an error; then the whole commit may be there or nothing of it.
    /// Every other error leaves the vault and its disk as they were: `Full`, `Halted`, and `NoMemory` if memory for the records, with the
    /// zeros that are laid behind them, is refused.
    pub fn append_all(&mut self, commit: &[Event]) -> Result<(), VaultError>
        requires some { 1 ≤ length commit.now }
        requires puts { AllByRecursion HasFewPuts commit.now }
        requires store { IsTrue D.is_honest → self.old.halted ≡ false → IsReady D.files self.old }
        ensures { AppendsAs D.Disk self.old self.new commit.now result }
    {
        fitting();
        sides_go_on();
        if self.halted {
            return Err(VaultError::Halted);
        }
        self.buffer.clear();
        spell_records(&mut self.buffer, commit)?;
        let zeros = zeros_behind(self.journal.end, self.buffer.len() as u64, self.laid);
        match self
            .journal
            .append_all(&mut self.disk, &mut self.buffer, zeros)
        {
            Ok(()) => {
                self.laid = laid_behind(self.laid, self.journal.end, zeros);
                Ok(())
            }
            Err(AppendError::Before(cause)) => Err(refusal(cause)),
            Err(AppendError::Within(error)) => {
                self.halted = true;
                Err(error.into())
            }
        }
    }
}

// How many zeros records of `count` bytes lay behind the closed gate that follows them. The journal ended at `end`, and zeros are known to lie up to `laid`.
fn zeros_behind(end: u64, count: u64, laid: u64) -> usize
    ensures lays { LaysBehind (end + count) result }
    ensures most { result ≤ GROUND }
    ensures none { (result ≡ 0) ↔ AreNotDue end count laid }
{
    let gate = end.saturating_add(count);
    if gate < FIRST_GROUND || gate < laid || count > GROUND / 2 {
        return 0;
    }
    LIMIT.saturating_sub(gate).saturating_sub(1).min(GROUND) as usize
}

// Up to where zeros are known to lie, once this number of them was laid behind a position.
fn laid_behind(laid: u64, end: u64, zeros: usize) -> u64
    ensures none { zeros ≡ 0 → result ≡ laid }
    ensures on { zeros ≢ 0 → end ≤ result }
    ensures some { zeros ≢ 0 → end + 1 + zeros < 2 ^ 64 → result ≡ end + 1 + zeros }
{
    if zeros == 0 {
        return laid;
    }
    end.saturating_add(1).saturating_add(zeros as u64)
}

// Why an append was refused before any call of the disk.
fn refusal(cause: JournalError) -> VaultError
    requires { (cause ≡ JournalError.Full) ⊎ (cause ≡ JournalError.NoMemory) }
    ensures causes { (result ≡ Full) ⊎ (result ≡ NoMemory) }
    ensures full { (result ≡ Full) ↔ (cause ≡ JournalError.Full) }
{
    match cause {
        JournalError::Full => VaultError::Full,
        _ => VaultError::NoMemory,
    }
}
