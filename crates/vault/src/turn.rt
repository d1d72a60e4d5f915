ghost use Rattle.std.specs.Prelude.{◌≡◌, ◌<◌, ◌≤◌, ◌+◌, ◌++◌, ◌^◌, ◌∷◌, false, length, IsTrue, MatchOption};
ghost use Rattle.disk.specs.Storage.{Reports};
ghost use Rattle.byteorder.specs.Endian.{little_bytes};
ghost use Rattle.journal.specs.declared.journal.TheConstants.{LIMIT};
ghost use Rattle.vault.specs.Calls.{Halts, RefusesTurn, TurnsOver, WritesSide, TurnsStore};
ghost use Rattle.vault.specs.Store.{IsReady, new_side};
ghost use Rattle.vault.specs.Turned.{Rests, WritesAnew};
ghost use Rattle.sides.specs.declared.gate.TheConstants.{FORMAT};

use crate::gates::{other, write_side};
use crate::{Vault, VaultError};
use byteorder::{ByteOrder, LittleEndian};
use codec::{Chain, ImageBytes, ImageSource};
use disk::{Disk, DiskError, Side};
use graph::fitting;
use journal::LIMIT;
use sides::{FORMAT, one_meaning_of_a_side, sides_go_on};

// The gate that ends a journal.
const CLOSED: u8 = 0;

impl<D: Disk> Vault<D> {
    /// Turns over: writes the other side anew, one generation greater, with the image of what the store holds and no
    /// record, and makes it live. Returns the new generation. The image's bytes come from the source, and go through the buffer, piece
    /// by piece; a longer buffer makes fewer calls of the disk. No memory is asked for.
    ///
    /// The vault halts exactly if a call of the disk returned an error; then either side may be live, for the same facts
    /// if the other file had a first byte. Every other error leaves the vault and its disk as they were: `Full` and
    /// `Halted`.
    pub fn turn_by<S: ImageSource + Drop>(
        &mut self,
        source: S,
        buffer: &mut [u8],
    ) -> Result<u64, VaultError>
        requires room { 0 < length buffer.old }
        requires store { IsTrue D.is_honest → self.old.halted ≡ false → IsReady D.files self.old }

        ensures turns { IsTrue D.is_honest → TurnsStore D.Disk self.old self.new (S.left source) result }
        ensures written { IsTrue D.is_honest → WritesSide D.files self.old self.new (S.left source) result }
        ensures over { TurnsOver self.old self.new (S.left source) result }
        ensures refused { RefusesTurn D.Disk self.old self.new (S.left source) result }
        ensures halting { Halts D.Disk self.old self.new result }
    {
        if self.halted {
            return Err(VaultError::Halted);
        }
        if self.generation == u64::MAX {
            return Err(VaultError::Full);
        }
        let Some(end) = end_of(self.text.len(), source.length()) else {
            return Err(VaultError::Full);
        };
        let generation = self.generation + 1;
        let side = other(self.journal.side);
        // What the new side stands for.
        fitting();
        one_meaning_of_a_side();
        sides_go_on();
        match write_next(&mut self.disk, side, generation, &self.text, source, buffer) {
            Ok(()) => {
                self.journal.side = side;
                self.journal.end = end;
                self.generation = generation;
                self.laid = 0;
                Ok(generation)
            }
            Err(error) => {
                self.halted = true;
                Err(error.into())
            }
        }
    }
}

// Writes the side of a generation anew, with this text, the image that the source gives, and no record.
fn write_next<D: Disk, S: ImageSource + Drop>(
    disk: &mut D,
    side: Side,
    generation: u64,
    text: &[u8],
    image: S,
    buffer: &mut [u8],
) -> Result<(), DiskError>
    requires rests { IsTrue D.is_honest → Rests (D.files disk.old side) }
    requires room { 0 < length buffer.old }
    requires short { (length text.now < 2 ^ 32) × (length (S.left image) < 2 ^ 32) }
    ensures written { IsTrue D.is_honest → WritesAnew D.Disk side (new_side generation text.now (S.left image)) disk.old disk.new result }
    ensures reports { Reports D.Disk disk.old disk.new result }
{
    let head = head_of(generation, text.len() as u32);
    let count = count_of(image.length() as u32);
    let closed = Chain::new(image, ImageBytes::new(&[CLOSED]));
    let counted = Chain::new(ImageBytes::new(&count), closed);
    let texted = Chain::new(ImageBytes::new(text), counted);
    let behind = Chain::new(ImageBytes::new(&head), texted);
    write_side(disk, side, behind, buffer)
}

// Where the journal begins, and ends, of a side without records, by the lengths of its text and its image; none if it would not lie below
// the limit.
fn end_of(text: usize, image: u64) -> Option<u64>
    ensures { MatchOption result (LIMIT ≤ 18 + text + image) (λ end. (end ≡ 18 + text + image) × (end < LIMIT)) }
{
    let end = 18u64.checked_add(text as u64)?.checked_add(image)?;
    (end < LIMIT).then_some(end)
}

// What comes before a side's text: the format, the generation, and the number of the text's bytes.
fn head_of(generation: u64, text: u32) -> [u8; 13]
    ensures { result ≡ FORMAT ∷ little_bytes 8 generation ++ little_bytes 4 text }
{
    let mut head = [FORMAT; 13];
    LittleEndian::write_u64(&mut head[1..9], generation);
    LittleEndian::write_u32(&mut head[9..], text);
    head
}

// A number of bytes, in four bytes.
fn count_of(count: u32) -> [u8; 4]
    ensures { result ≡ little_bytes 4 count }
{
    let mut bytes = [0; 4];
    LittleEndian::write_u32(&mut bytes, count);
    bytes
}
