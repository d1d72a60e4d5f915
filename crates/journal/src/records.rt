ghost use Rattle.std.specs.Prelude.{◌≡◌, ◌≤◌, ◌<◌, ◌+◌, ◌^◌, ◌↔◌, ◌++◌, [], length, take, drop, replicate, IsTrue, IfOk, OnOk, MatchOption};
ghost use Rattle.journal.specs.WholeRecords.{BeginsWith, BeginsWithNone, IsRecordAt, LeadsTo};
ghost use Rattle.journal.specs.Places.{payloads_at, AreWithin};
ghost use Rattle.journal.specs.Records.{record_of, StandsFor};

use crate::payloads::Place;
use byteorder::{ByteOrder, LittleEndian};
use std::alloc::{AllocError, Global};

// The gate of a record that counts. Any other byte is a closed gate.
const OPEN: u8 = 1;

/// The number of bytes of a record before its payload: the gate and the length.
pub(crate) const HEAD: usize = 5;

/// The number of bytes of a payload's record.
pub fn record_length(payload: &[u8]) -> u64
    ensures { result ≡ length (record_of payload.now) }
{
    HEAD as u64 + payload.len() as u64
}

/// Begins a record: adds room for its gate and its length, behind which the payload is to be added. Returns its place, for `end_record`.
pub fn begin_record(out: &mut Vec<u8>) -> Result<usize, AllocError>
    ensures room { OnOk result (out.new.items ≡ out.old.items ++ replicate 5 0) }
    ensures place { IfOk result (λ place. place ≡ length out.old.items) }
{
    let place = out.len();
    out.extend_from_slice(&[0; HEAD])?;
    Ok(place)
}

/// Ends a record that began at a place: all that was added behind its room is its payload. Its gate is open.
pub fn end_record(out: &mut Vec<u8>, place: usize)
    requires room { place + 5 ≤ length out.old.items }
    requires short { length out.old.items < place + 5 + 2 ^ 32 }
    ensures { out.new.items ≡ take place out.old.items ++ record_of (drop (place + 5) out.old.items) }
{
    let count = (out.len() - place - HEAD) as u32;
    out[place] = OPEN;
    LittleEndian::write_u32(&mut out[place + 1..place + HEAD], count);
}

/// The payload of the record at the front of the bytes, if all of the record and the gate after it are there.
pub fn first_payload(bytes: &[u8]) -> Option<&[u8]>
    ensures { MatchOption result (BeginsWithNone bytes.now) (λ payload. BeginsWith payload.now bytes.now) }
{
    if bytes.len() < HEAD || bytes[0] != OPEN {
        return None;
    }
    let count = LittleEndian::read_u32(&bytes[1..]) as usize;
    if bytes.len() - HEAD <= count {
        return None;
    }
    Some(&bytes[HEAD..HEAD + count])
}

/// Whether the bytes begin with a closed gate.
pub fn begins_closed(bytes: &[u8]) -> bool
    ensures { IsTrue result ↔ StandsFor bytes.now [] }
{
    !bytes.is_empty() && bytes[0] != OPEN
}

/// The whole records at the front of some bytes.
#[derive(Drop)]
pub(crate) struct Records {
    /// Where their payloads are.
    pub(crate) places: Vec<Place>,
    /// The offset after the last of them.
    pub(crate) end: usize,
}

/// Finds the whole records at the front of the bytes; the gate after each of them must be there too.
pub(crate) fn find_records(alloc: Global, bytes: &[u8]) -> Result<Records, AllocError>
    ensures within { IfOk result (λ found. AreWithin bytes.now found.places.items) }
    ensures leads { IfOk result (λ found. LeadsTo bytes.now found.end (payloads_at bytes.now found.places.items)) }
    ensures last { IfOk result (λ found. BeginsWithNone (drop found.end bytes.now)) }
{
    let mut places = Vec::new(alloc);
    let mut end = 0;
    while let Some(place) = find_payload(bytes, end) {
        places.push(place)?;
        end = place.end;
    }
    Ok(Records { places, end })
}

// Where the payload of the record at a gate is, if the gate is open, and all of the record and the gate after it are there.
fn find_payload(bytes: &[u8], gate: usize) -> Option<Place>
    requires { gate ≤ length bytes.now }
    ensures { MatchOption result (BeginsWithNone (drop gate bytes.now)) (IsRecordAt bytes.now gate) }
{
    let payload = first_payload(&bytes[gate..])?;
    let start = gate + HEAD;
    Some(Place {
        start,
        end: start + payload.len(),
    })
}
