ghost use Rattle.std.specs.List.{flat_map};
ghost use Rattle.graph.specs.Canonical.{number_text};
ghost use Rattle.graph.specs.Pieces.{Writes, indentation};

use itoa::Buffer;
use std::alloc::AllocError;

/// Appends these texts, one after another.
pub(crate) fn put(text: &mut Vec<u8>, pieces: &[&str]) -> Result<(), AllocError>
    ensures { Writes result text.old text.new (flat_map (λ piece. piece.now) pieces.now) }
{
    for piece in pieces {
        text.extend_from_slice(piece.as_bytes())?;
    }
    Ok(())
}

/// Appends the indentation of a line at `level`.
pub(crate) fn put_indentation(text: &mut Vec<u8>, level: usize) -> Result<(), AllocError>
    ensures { Writes result text.old text.new (indentation level) }
{
    for _level in 0..level {
        put(text, &["  "])?;
    }
    Ok(())
}

/// Appends a number.
pub(crate) fn put_number(text: &mut Vec<u8>, number: i64) -> Result<(), AllocError>
    ensures { Writes result text.old text.new (number_text number) }
{
    let mut digits = Buffer::new();
    put(text, &[digits.format(number)])
}
