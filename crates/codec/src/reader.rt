ghost use Rattle.std.specs.Prelude.{◌≡◌, ◌≤◌, length};
ghost use Rattle.byteorder.specs.Endian.{little_number, twos_complement};
ghost use Rattle.terms.specs.declared.key.TheConstants.{MAX_COMPONENTS};
ghost use Rattle.codec.specs.Answers.{leaving};
ghost use Rattle.codec.specs.Reading.{number, value, key, address, tag, instance, fault_kind, mark, put_number, producer, image_fault, all_used};

use crate::CodecError;
use byteorder::{ByteOrder, LittleEndian};
use terms::{
    Addr, FaultKind, Inst, ItemCollection, Key, MAX_COMPONENTS, MOST_PUTS, Producer,
    StepCollection, Tag, TagCollection,
};

/// Bytes that are read from the left, with one method for each field.
///
/// A method returns the field at the front, and moves past it. After an error, read nothing more. `most` is the greatest number of
/// components that a key may have.
#[derive(Drop)]
pub struct Reader<'a> {
    /// The bytes that are not read yet.
    pub(crate) rest: &'a [u8],
}

impl Reader<'_> {
    /// A kind, a mark or a small count.
    pub(crate) fn byte(&mut self) -> Result<u8, CodecError>
        ensures { leaving self.new.rest.now result ≡ number 1 self.old.rest.now }
    {
        let bytes = self.rest;
        if bytes.len() < 1 {
            return Err(CodecError::Short);
        }
        self.rest = &bytes[1..];
        Ok(bytes[0])
    }

    /// The number of a collection, or of the events of a group.
    pub(crate) fn two_bytes(&mut self) -> Result<u16, CodecError>
        ensures { leaving self.new.rest.now result ≡ number 2 self.old.rest.now }
    {
        let bytes = self.rest;
        if bytes.len() < 2 {
            return Err(CodecError::Short);
        }
        self.rest = &bytes[2..];
        Ok(LittleEndian::read_u16(bytes))
    }

    /// A count of elements, or the number of a put.
    pub(crate) fn count(&mut self) -> Result<u32, CodecError>
        ensures { leaving self.new.rest.now result ≡ number 4 self.old.rest.now }
    {
        let bytes = self.rest;
        if bytes.len() < 4 {
            return Err(CodecError::Short);
        }
        self.rest = &bytes[4..];
        Ok(LittleEndian::read_u32(bytes))
    }

    /// A value, or a component of a key.
    pub(crate) fn value(&mut self) -> Result<i64, CodecError>
        ensures { leaving self.new.rest.now result ≡ value self.old.rest.now }
    {
        let bytes = self.rest;
        if bytes.len() < 8 {
            return Err(CodecError::Short);
        }
        self.rest = &bytes[8..];
        Ok(value_in(bytes))
    }

    // A key of `most` components at most.
    fn key(&mut self, most: usize) -> Result<Key, CodecError>
        requires { most ≤ MAX_COMPONENTS }
        ensures { leaving self.new.rest.now result ≡ key most self.old.rest.now }
    {
        let count = usize::from(self.byte()?);
        if most < count {
            return Err(CodecError::Range);
        }
        let mut components = [0; MAX_COMPONENTS];
        for place in 0..count {
            components[place] = self.value()?;
        }
        Ok(Key::new(&components[..count]))
    }

    pub(crate) fn address(&mut self, most: usize) -> Result<Addr, CodecError>
        requires { most ≤ MAX_COMPONENTS }
        ensures { leaving self.new.rest.now result ≡ address most self.old.rest.now }
    {
        let collection = ItemCollection(self.two_bytes()?);
        let key = self.key(most)?;
        Ok(Addr { collection, key })
    }

    pub(crate) fn tag(&mut self, most: usize) -> Result<Tag, CodecError>
        requires { most ≤ MAX_COMPONENTS }
        ensures { leaving self.new.rest.now result ≡ tag most self.old.rest.now }
    {
        let collection = TagCollection(self.two_bytes()?);
        let key = self.key(most)?;
        Ok(Tag { collection, key })
    }

    pub(crate) fn instance(&mut self, most: usize) -> Result<Inst, CodecError>
        requires { most ≤ MAX_COMPONENTS }
        ensures { leaving self.new.rest.now result ≡ instance most self.old.rest.now }
    {
        let collection = StepCollection(self.two_bytes()?);
        let key = self.key(most)?;
        Ok(Inst { collection, key })
    }

    pub(crate) fn fault_kind(&mut self) -> Result<FaultKind, CodecError>
        ensures { leaving self.new.rest.now result ≡ fault_kind self.old.rest.now }
    {
        FaultKind::numbered(self.byte()?).ok_or(CodecError::Kind)
    }

    /// Whether the environment put a tag.
    pub(crate) fn mark(&mut self) -> Result<bool, CodecError>
        ensures { leaving self.new.rest.now result ≡ mark self.old.rest.now }
    {
        match self.byte()? {
            0 => Ok(false),
            1 => Ok(true),
            _ => Err(CodecError::Kind),
        }
    }

    pub(crate) fn producer(&mut self, most: usize) -> Result<Producer, CodecError>
        requires { most ≤ MAX_COMPONENTS }
        ensures { leaving self.new.rest.now result ≡ producer most self.old.rest.now }
    {
        match self.byte()? {
            0 => Ok(Producer::Env),
            1 => {
                let instance = self.instance(most)?;
                let number = self.put_number()?;
                Ok(Producer::By(instance, number))
            }
            _ => Err(CodecError::Kind),
        }
    }

    /// The instance at fault of an image, if there is one.
    pub(crate) fn fault(&mut self, most: usize) -> Result<Option<(Inst, FaultKind)>, CodecError>
        requires { most ≤ MAX_COMPONENTS }
        ensures { leaving self.new.rest.now result ≡ image_fault most self.old.rest.now }
    {
        match self.byte()? {
            0 => Ok(None),
            1 => {
                let instance = self.instance(most)?;
                let kind = self.fault_kind()?;
                Ok(Some((instance, kind)))
            }
            _ => Err(CodecError::Kind),
        }
    }

    /// Checks that nothing is left.
    pub(crate) fn end(&self) -> Result<(), CodecError>
        ensures { result ≡ all_used tt self.now.rest.now }
    {
        if !self.rest.is_empty() {
            return Err(CodecError::Trailing);
        }
        Ok(())
    }

    fn put_number(&mut self) -> Result<u32, CodecError>
        ensures { leaving self.new.rest.now result ≡ put_number self.old.rest.now }
    {
        let number = self.count()?;
        if MOST_PUTS as u32 <= number {
            return Err(CodecError::Range);
        }
        Ok(number)
    }
}

// The value in the first eight bytes.
fn value_in(bytes: &[u8]) -> i64
    requires { 8 ≤ length bytes.now }
    ensures { result ≡ twos_complement 8 (little_number 8 bytes.now) }
{
    LittleEndian::read_i64(bytes)
}
