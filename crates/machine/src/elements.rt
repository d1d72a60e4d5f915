ghost use Rattle.std.specs.Prelude.{◌≡◌, ◌≤◌, ◌++◌, [], drop, length, min, take, vec_capacity, ◌+◌, ◌<◌, ◌^◌, IfOk, IfSome};
ghost use Rattle.codec.specs.declared.elements.TheConstants.{MOST_BYTES as MOST};
ghost use Rattle.machine.specs.Walks.{IsFrontOf, IsMeasureOf};

use crate::spelling::Spelling;
use codec::{ImageSource, MOST_BYTES, encode_count};
use std::alloc::AllocError;
use std::marker::Model;

/// The bytes of some elements, which are spelled one by one as the bytes are asked for, and bytes before them. It keeps the bytes of one
/// element.
#[derive(Drop)]
pub(crate) struct Elements<W: Spelling> {
    walk: W,
    // The bytes of one element, and how many of them were given.
    pending: Vec<u8>,
    given: usize,
    // The number of all bytes that are left.
    left: u64,
}

impl<W: Spelling> Model for Elements<W> {
    ghost use Rattle.std.specs.Prelude.{◌≡◌, ◌≤◌, ◌++◌, ℕ, List, drop, length, vec_capacity};
    ghost use Rattle.codec.specs.declared.elements.TheConstants.{MOST_BYTES as MOST};

    ghost Value = { List ℕ };

    ghost view = { λ e. drop e.given e.pending.items ++ W.rest e.walk };

    ghost invariant = { λ e. (e.given ≤ length e.pending.items) × (MOST ≤ vec_capacity e.pending) × (e.left ≡ length (drop e.given e.pending.items ++ W.rest e.walk)) };
}

impl<W: Spelling> Elements<W> {
    /// The elements of a walk, after their front.
    pub(crate) fn new(walk: W, front: Front) -> Self
        requires sized { front.length ≡ length (front.bytes.items ++ W.rest walk) }
        requires room { MOST ≤ vec_capacity front.bytes }
        ensures { result ≡ front.bytes.items ++ W.rest walk }
    {
        let Front { bytes, length } = front;
        Elements {
            walk,
            pending: bytes,
            given: 0,
            left: length,
        }
    }
}

impl<W: Spelling> ImageSource for Elements<W> {
    ghost left = { λ e. e };

    fn length(&self) -> u64 {
        self.left
    }

    fn piece(&mut self, out: &mut [u8]) -> usize {
        if self.given == self.pending.len() && MOST_BYTES <= out.len() {
            let count = spelled(&mut self.walk, out);
            self.left -= count as u64;
            return count;
        }
        let begin = next_bytes(&mut self.walk, &mut self.pending, self.given);
        let count = copied(&self.pending[begin..], out);
        self.given = begin + count;
        self.left -= count as u64;
        count
    }
}

// Spells elements one after another, until `out` may have no room for another, or none is left. Returns the number of the bytes.
fn spelled<W: Spelling>(walk: &mut W, out: &mut [u8]) -> usize
    requires { MOST ≤ length out.old }
    ensures within { result ≤ length out.old }
    ensures room { length out.new ≡ length out.old }
    ensures gives { W.rest walk.old ≡ take result out.new ++ W.rest walk.new }
    ensures none { result ≡ 0 → W.rest walk.old ≡ [] }
{
    let mut count = 0;
    while MOST_BYTES <= out.len() - count {
        let more = walk.spell_next(&mut out[count..]);
        if more == 0 {
            return count;
        }
        count += more;
    }
    count
}

// Where the bytes begin that were not given yet: among those that are pending, or at the front of the next element, which takes their
// place if all of them were given.
fn next_bytes<W: Spelling>(walk: &mut W, pending: &mut Vec<u8>, given: usize) -> usize
    requires within { given ≤ length pending.old.items }
    requires room { MOST ≤ vec_capacity pending.old }
    ensures within { result ≤ length pending.new.items }
    ensures room { MOST ≤ vec_capacity pending.new }
    ensures same { drop result pending.new.items ++ W.rest walk.new ≡ drop given pending.old.items ++ W.rest walk.old }
    ensures none { drop result pending.new.items ≡ [] → drop given pending.old.items ++ W.rest walk.old ≡ [] }
{
    if given < pending.len() {
        return given;
    }
    let mut element = [0; MOST_BYTES];
    let count = walk.spell_next(&mut element);
    pending.clear();
    let _ = pending.extend_from_slice(&element[..count]);
    0
}

// Copies as many of the bytes as `out` has room for, and returns how many.
fn copied(bytes: &[u8], out: &mut [u8]) -> usize
    ensures count { result ≡ min (length bytes.now) (length out.old) }
    ensures room { length out.new ≡ length out.old }
    ensures copied { take result out.new ≡ take result bytes.now }
{
    let count = bytes.len().min(out.len());
    out[..count].copy_from_slice(&bytes[..count]);
    count
}

/// What comes before the elements of a walk, and how many bytes there are with them.
#[derive(Drop)]
pub(crate) struct Front {
    bytes: Vec<u8>,
    length: u64,
}

impl Front {
    /// For the elements that are left of a walk, which it goes along: the bytes in `first`, and the number of the elements.
    pub(crate) fn new<W: Spelling>(walk: &mut W, first: Vec<u8>) -> Result<Self, AllocError>
        requires { MOST ≤ vec_capacity first }
        ensures front { IfOk result (λ front. IsFrontOf W.rest W.count W.InRange walk.old first.items front.bytes.items front.length) }
        ensures room { IfOk result (λ front. MOST ≤ vec_capacity front.bytes) }
    {
        let mut bytes = first;
        let Measure { count, length } = measured(walk)?;
        encode_count(&mut bytes, count)?;
        let before = bytes.len() as u64;
        let length = length.checked_add(before).ok_or(AllocError)?;
        Ok(Front { bytes, length })
    }
}

// A number of elements, and of their bytes.
#[derive(Clone, Copy)]
struct Measure {
    count: u32,
    length: u64,
}

impl Measure {
    // One more element, of this number of bytes, if there are not too many then.
    fn with(self, bytes: usize) -> Option<Measure>
        ensures { IfSome result (λ more. (more.count ≡ self.count + 1) × (more.count < 2 ^ 32) × (more.length ≡ self.length + bytes)) }
    {
        Some(Measure {
            count: self.count.checked_add(1)?,
            length: self.length.checked_add(bytes as u64)?,
        })
    }
}

// The number of the elements that are left of a walk, and of their bytes. It goes along them, and spells none.
fn measured<W: Spelling>(walk: &mut W) -> Result<Measure, AllocError>
    ensures { IfOk result (λ measure. IsMeasureOf W.rest W.count W.InRange walk.old measure.count measure.length) }
{
    let mut measure = Measure {
        count: 0,
        length: 0,
    };
    loop {
        let size = walk.measure_next();
        if size == 0 {
            return Ok(measure);
        }
        measure = measure.with(size).ok_or(AllocError)?;
    }
}
