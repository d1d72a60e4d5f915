ghost use Rattle.std.specs.Prelude.{◌≡◌};

use disk::Disk;
use journal::Journal;

/// An open store on two files.
///
/// Its files alone say what it holds; the fields say where the next record goes. A vault halts exactly if a call of the disk
/// returns an error in `append` or `turn_by`, and stays halted until its disk is opened again.
pub struct Vault<D: Disk> {
    pub(crate) disk: D,
    // The journal of the live side.
    pub(crate) journal: Journal,
    // The generation of the live side.
    pub(crate) generation: u64,
    // The canonical text of the graph.
    pub(crate) text: Vec<u8>,
    // Whether a call of the disk returned an error before.
    pub(crate) halted: bool,
    // Up to where zeros are known to lie behind the journal; 0 if it is not known. No clause rests on it.
    pub(crate) laid: u64,
    // Holds the records of a commit while it is appended.
    pub(crate) buffer: Vec<u8>,
}

impl<D: Disk + Drop> Drop for Vault<D> {
    // By hand, so that dropping a vault is one call, wherever it is dropped.
    fn drop(self) {
        let Vault {
            disk: _,
            journal: _,
            generation: _,
            text: _,
            halted: _,
            laid: _,
            buffer: _,
        } = self;
    }
}

impl<D: Disk> Vault<D> {
    /// The generation of the live side, if the vault is not halted: 1 in a new store, and one more after each turnover. A
    /// turnover that halts leaves it as it was, whichever side is live then.
    pub fn generation(&self) -> u64
        ensures { result ≡ self.now.generation }
    {
        self.generation
    }

    /// Whether a call of the disk returned an error before, so that its disk must be opened again.
    pub fn is_halted(&self) -> bool
        ensures { result ≡ self.now.halted }
    {
        self.halted
    }

    /// Gives the disk back, for another opening.
    pub fn into_disk(self) -> D
        ensures { result ≡ self.disk }
    {
        let Vault {
            disk,
            journal: _,
            generation: _,
            text: _,
            halted: _,
            laid: _,
            buffer: _,
        } = self;
        disk
    }
}
