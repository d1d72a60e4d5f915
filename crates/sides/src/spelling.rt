ghost use Rattle.std.specs.Prelude.{◌≡◌, ◌≤◌, ◌<◌, ◌+◌, ◌^◌, ◌++◌, ◌↔◌, ◌∷◌, length, take, drop, IsTrue, IfOk, OnOk};
ghost use Rattle.byteorder.specs.Endian.{little_bytes};
ghost use Rattle.codec.specs.Image.{IsInOrder};
ghost use Rattle.codec.specs.Spelling.{IsImage, image_bytes};
ghost use Rattle.sides.specs.Side.{counted, AppendsSide};
ghost use Rattle.terms.specs.declared.key.TheConstants.{MAX_COMPONENTS};
ghost use Rattle.sides.specs.declared.gate.TheConstants.{FORMAT};

use crate::gate::FORMAT;
use crate::parts::COUNT;
use byteorder::{ByteOrder, LittleEndian};
use codec::{Image, encode_image};
use std::alloc::AllocError;

// The gate that ends a journal.
const CLOSED: u8 = 0;

/// Appends what follows a side's gate: this generation, this graph text, this image, and no record. Returns whether four
/// bytes can hold the number of the image's bytes; if they cannot, what was appended is no side.
///
/// An error says that memory was refused; what `out` holds then is unspecified.
pub fn spell_side(
    out: &mut Vec<u8>,
    generation: u64,
    text: &[u8],
    image: &Image,
) -> Result<bool, AllocError>
    requires text { length text.now < 2 ^ 32 }
    requires image { IsInOrder image.now }
    ensures spelled { OnOk result (AppendsSide generation text.now image.now out.old.items out.new.items) }
    ensures counted { IfOk result (λ counted. IsTrue counted ↔ (length (image_bytes image.now) < 2 ^ 32)) }
    ensures in_range { OnOk result (IsImage MAX_COMPONENTS image.now) }
{
    put_head(out, generation)?;
    put_text(out, text)?;
    let counted = put_image(out, image)?;
    out.push(CLOSED)?;
    Ok(counted)
}

// Appends the format and the generation.
fn put_head(out: &mut Vec<u8>, generation: u64) -> Result<(), AllocError>
    ensures { OnOk result (out.new.items ≡ out.old.items ++ FORMAT ∷ little_bytes 8 generation) }
{
    let mut bytes = [0; 8];
    LittleEndian::write_u64(&mut bytes, generation);
    out.push(FORMAT)?;
    out.extend_from_slice(&bytes)
}

// Appends the length of a text, and the text.
fn put_text(out: &mut Vec<u8>, text: &[u8]) -> Result<(), AllocError>
    requires { length text.now < 2 ^ 32 }
    ensures { OnOk result (out.new.items ≡ out.old.items ++ counted text.now) }
{
    let mut count = [0; COUNT];
    LittleEndian::write_u32(&mut count, text.len() as u32);
    out.extend_from_slice(&count)?;
    out.extend_from_slice(text)
}

// Appends the length of an image in four bytes, and the image. Returns whether the length fits in four bytes.
fn put_image(out: &mut Vec<u8>, image: &Image) -> Result<bool, AllocError>
    requires { IsInOrder image.now }
    ensures spelled { OnOk result (length (image_bytes image.now) < 2 ^ 32 → out.new.items ≡ out.old.items ++ counted (image_bytes image.now)) }
    ensures counted { IfOk result (λ counted. IsTrue counted ↔ (length (image_bytes image.now) < 2 ^ 32)) }
    ensures in_range { OnOk result (IsImage MAX_COMPONENTS image.now) }
{
    let at = out.len();
    out.extend_from_slice(&[0; COUNT])?;
    encode_image(out, image)?;
    match u32::try_from(out.len() - at - COUNT) {
        Ok(count) => {
            write_count(out, at, count);
            Ok(true)
        }
        Err(_) => Ok(false),
    }
}

// Writes a length over four bytes.
fn write_count(bytes: &mut [u8], at: usize, count: u32)
    requires { at + 4 ≤ length bytes.old }
    ensures { bytes.new ≡ take at bytes.old ++ little_bytes 4 count ++ drop (at + 4) bytes.old }
{
    LittleEndian::write_u32(&mut bytes[at..], count);
}
