//! An image that is read element by element: the instance at fault, and then three lists.
ghost use Rattle.std.specs.Prelude.{◌≡◌, ◌≤◌, IfOk, IfErr, Ok, Err};
ghost use Rattle.terms.specs.declared.key.TheConstants.{MAX_COMPONENTS};
ghost use Rattle.codec.specs.Reading.{comes_after, image_fault};

use crate::CodecError;
use crate::element::Ranked;
use crate::reader::Reader;
use std::marker::Model;
use terms::{FaultKind, Inst};

/// The instance at fault, if there is one, with which these bytes begin, and the bytes after it. A key has `most` components at most.
pub fn read_fault(
    bytes: &[u8],
    most: usize,
) -> Result<(Option<(Inst, FaultKind)>, &[u8]), CodecError>
    requires { most ≤ MAX_COMPONENTS }
    ensures read { IfOk result (λ read. image_fault most bytes.now ≡ Ok (read.0, read.1.now)) }
    ensures fault { IfErr result (λ error. image_fault most bytes.now ≡ Err error) }
{
    let mut reader = Reader { rest: bytes };
    let fault = reader.fault(most)?;
    Ok((fault, reader.rest))
}

/// A list of an image, in strictly rising order, that is read element by element from the left: of items `(Addr, i64, Producer)`, of tags
/// with their marks `(Tag, bool)`, or of instances `Inst`. It does not allocate.
#[derive(Drop)]
pub struct ListReader<'a, T: Ranked> {
    reader: Reader<'a>,
    // The greatest number of components that a key may have.
    most: usize,
    // The number of elements that are not read yet.
    left: u32,
    // The element that was read last.
    before: Option<T>,
}

impl<'a, T: Ranked> Model for ListReader<'a, T> {
    ghost use Rattle.std.specs.Prelude.{◌≤◌};
    ghost use Rattle.terms.specs.declared.key.TheConstants.{MAX_COMPONENTS};
    ghost use Rattle.codec.specs.Lists.{Unread, unread};

    // What is still to be read.
    ghost Value = { Unread T };

    ghost view = { λ l. unread T.cmp (T.reading l.most) l.before l.left l.reader.rest.now };

    ghost invariant = { λ l. l.most ≤ MAX_COMPONENTS };
}

impl<'a, T: Ranked> ListReader<'a, T> {
    ghost use Rattle.std.specs.Prelude.{◌≡◌, ◌≤◌, IfOk, IfErr, Err};
    ghost use Rattle.terms.specs.declared.key.TheConstants.{MAX_COMPONENTS};
    ghost use Rattle.codec.specs.Lists.{AreAfter, HandsOut, read_of};
    ghost use Rattle.codec.specs.Reading.{list};

    /// The list with which these bytes begin, of which the number of its elements is read. A key has `most` components at most.
    pub fn new(bytes: &'a [u8], most: usize) -> Result<Self, CodecError>
        requires { most ≤ MAX_COMPONENTS }
        ensures read { IfOk result (λ l. read_of l ≡ list T.cmp (T.reading most) bytes.now) }
        ensures fault { IfErr result (λ error. list T.cmp (T.reading most) bytes.now ≡ Err error) }
    {
        let mut reader = Reader { rest: bytes };
        let left = reader.count()?;
        Ok(ListReader {
            reader,
            most,
            left,
            before: None,
        })
    }

    /// Reads the next element, if one is left. After an error, read nothing more.
    pub fn next(&mut self) -> Result<Option<T>, CodecError>
        ensures { HandsOut self.old self.new result }
    {
        if self.left == 0 {
            return Ok(None);
        }
        let element = T::read(&mut self.reader, self.most)?;
        if !may_follow(self.before, element) {
            return Err(CodecError::Order);
        }
        self.left -= 1;
        self.before = Some(element);
        Ok(Some(element))
    }

    // The number of elements that are not read yet, if there is no fault.
    pub(crate) fn left(&self) -> u32 {
        self.left
    }

    /// The bytes after the list, once no element is left.
    pub fn rest(self) -> &'a [u8]
        ensures { AreAfter self.entry result.now }
    {
        self.reader.rest
    }
}

// Whether an element may follow the one before it, if there is one.
fn may_follow<T: Ranked>(before: Option<T>, element: T) -> bool
    ensures { result ≡ comes_after T.cmp before element }
{
    match before {
        None => true,
        Some(before) => element.comes_after(&before),
    }
}
