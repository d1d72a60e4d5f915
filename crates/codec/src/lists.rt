ghost use Rattle.std.specs.Prelude.{◌≡◌, ◌≤◌, ◌*◌, [], IfOk, vec_capacity};
ghost use Rattle.terms.specs.declared.key.TheConstants.{MAX_COMPONENTS};
ghost use Rattle.codec.specs.Answers.{items_in, ReadsOrRefused};
ghost use Rattle.codec.specs.Reading.{several, list};

use crate::CodecError;
use crate::element::{Element, Ranked};
use crate::image_reader::ListReader;
use crate::reader::Reader;
use std::alloc::{AllocError, Global};

// Room for `count` elements, but for no more than `bytes` bytes could spell.
fn room<T: Element>(alloc: Global, bytes: usize, count: u32) -> Result<Vec<T>, AllocError>
    ensures empty { IfOk result (λ elements. elements.items ≡ []) }
    ensures spelled { IfOk result (λ elements. T.LEAST * vec_capacity elements ≤ bytes) }
{
    let most = bytes / T::LEAST;
    Vec::with_capacity(alloc, most.min(count as usize))
}

/// Reads `count` elements, one after another, whose keys have `most` components at most.
pub(crate) fn several<T: Element>(
    alloc: Global,
    reader: &mut Reader<'_>,
    count: u32,
    most: usize,
) -> Result<Vec<T>, CodecError>
    requires { most ≤ MAX_COMPONENTS }
    ensures { ReadsOrRefused reader.new.rest.now (items_in result) (several count (T.reading most) reader.old.rest.now) }
{
    let mut elements = room(alloc, reader.rest.len(), count)?;
    for _ in 0..count {
        elements.push(T::read(reader, most)?)?;
    }
    Ok(elements)
}

/// Reads a list in strictly rising order: the number of its elements, and the elements. Their keys have `most` components at most.
pub(crate) fn rising<T: Ranked>(
    alloc: Global,
    reader: &mut Reader<'_>,
    most: usize,
) -> Result<Vec<T>, CodecError>
    requires { most ≤ MAX_COMPONENTS }
    ensures { ReadsOrRefused reader.new.rest.now (items_in result) (list T.cmp (T.reading most) reader.old.rest.now) }
{
    let mut list = ListReader::new(reader.rest, most)?;
    let mut elements = room(alloc, reader.rest.len(), list.left())?;
    while let Some(element) = list.next()? {
        elements.push(element)?;
    }
    reader.rest = list.rest();
    Ok(elements)
}
