ghost use Rattle.std.specs.Prelude.{◌≡◌, ◌<◌, ◌≤◌, ℕ, List, Result};
ghost use Rattle.std.proofs.Common.{arith};
ghost use Rattle.terms.specs.declared.key.TheConstants.{MAX_COMPONENTS};
ghost use Rattle.codec.specs.Answers.{leaving};
ghost use Rattle.codec.specs.Reading.{one_put, item, marked, instance};
ghost use Rattle.codec.specs.Entries.{item_cmp, marked_cmp};
ghost use Rattle.codec.specs.declared.error.CodecError.{CodecError};
ghost use Rattle.std.specs.Ordering.{is_lt};
ghost use Rattle.std.specs.declared.cmp.Ordering.{Ordering};
ghost use Rattle.terms.specs.Name.{inst_cmp};

use crate::CodecError;
use crate::reader::Reader;
use terms::{Addr, Inst, Producer, Put, Tag, addr_order, inst_order, tag_order};

/// An element of a list in bytes.
pub trait Element: Copy {
    /// The element that bytes are read as, if a key may have this many components, and the bytes after it.
    ghost reading: { ℕ → List ℕ → Result (Self × List ℕ) CodecError };

    /// The least number of bytes that spell an element.
    const LEAST: usize;

    ghost LEAST: { ℕ };

    /// Reads an element whose keys have `most` components at most.
    fn read(reader: &mut Reader<'_>, most: usize) -> Result<Self, CodecError>
        requires { most ≤ MAX_COMPONENTS }
        ensures { leaving reader.new.rest.now result ≡ reading most reader.old.rest.now };

    ghost takes_room: { 0 < LEAST };
}

/// An element of a list that is in strictly rising order.
pub trait Ranked: Element {
    ghost cmp: { Self → Self → Ordering };

    /// Whether it may follow `before`.
    fn comes_after(&self, before: &Self) -> bool
        ensures { result ≡ is_lt (cmp before.now self.now) };
}

impl Element for Put {
    ghost reading = { one_put };

    // Its kind, and a tag that has no component.
    const LEAST: usize = 4;

    ghost LEAST = { 4 };

    ghost takes_room = { Prim.omega arith };

    fn read(reader: &mut Reader<'_>, most: usize) -> Result<Put, CodecError> {
        match reader.byte()? {
            1 => {
                let address = reader.address(most)?;
                let value = reader.value()?;
                Ok(Put::Item(address, value))
            }
            2 => Ok(Put::Tag(reader.tag(most)?)),
            _ => Err(CodecError::Kind),
        }
    }
}

impl Element for (Addr, i64, Producer) {
    ghost reading = { item };

    // An address that has no component, a value, and the environment.
    const LEAST: usize = 12;

    ghost LEAST = { 12 };

    ghost takes_room = { Prim.omega arith };

    fn read(reader: &mut Reader<'_>, most: usize) -> Result<(Addr, i64, Producer), CodecError> {
        let address = reader.address(most)?;
        let value = reader.value()?;
        let producer = reader.producer(most)?;
        Ok((address, value, producer))
    }
}

impl Ranked for (Addr, i64, Producer) {
    ghost cmp = { item_cmp };

    fn comes_after(&self, before: &(Addr, i64, Producer)) -> bool {
        addr_order(&before.0, &self.0).is_lt()
    }
}

impl Element for (Tag, bool) {
    ghost reading = { marked };

    // A tag that has no component, and its mark.
    const LEAST: usize = 4;

    ghost LEAST = { 4 };

    ghost takes_room = { Prim.omega arith };

    fn read(reader: &mut Reader<'_>, most: usize) -> Result<(Tag, bool), CodecError> {
        let tag = reader.tag(most)?;
        let mark = reader.mark()?;
        Ok((tag, mark))
    }
}

impl Ranked for (Tag, bool) {
    ghost cmp = { marked_cmp };

    fn comes_after(&self, before: &(Tag, bool)) -> bool {
        tag_order(&before.0, &self.0).is_lt()
    }
}

impl Element for Inst {
    ghost reading = { instance };

    // An instance that has no component.
    const LEAST: usize = 3;

    ghost LEAST = { 3 };

    ghost takes_room = { Prim.omega arith };

    fn read(reader: &mut Reader<'_>, most: usize) -> Result<Inst, CodecError> {
        reader.instance(most)
    }
}

impl Ranked for Inst {
    ghost cmp = { inst_cmp };

    fn comes_after(&self, before: &Inst) -> bool {
        inst_order(before, self).is_lt()
    }
}
