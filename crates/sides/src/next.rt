//! The commits of a journal, one after another.
ghost use Rattle.std.specs.Prelude.{ℕ, drop, IfOk, IsErrOf};
ghost use Rattle.sides.specs.NextCommit.{IsFurther, ReadsNext, StandForNone};
ghost use Rattle.sides.specs.declared.error.SideError.TheVariants.{Damaged};

use crate::SideError;
use codec::{CodecError, decode_payload, spellings_of_commits};
use journal::{first_payload, record_length, records_lead};
use std::alloc::Global;
use terms::{Event, MAX_COMPONENTS};

/// Reads the commit whose record is at this position of a journal into `commit`. Returns the position after the record, or `None` if no
/// whole record is there, as at the end of the journal.
///
/// `Damaged` says that the record at this position spells no commit.
pub fn next_commit(
    alloc: Global,
    bytes: &[u8],
    at: u64,
    commit: &mut Vec<Event>,
) -> Result<Option<u64>, SideError>
    ensures read { IfOk result (ReadsNext bytes.now at commit.new.items) }
    ensures goes_on { IfOk result (IsFurther bytes.now at) }
    ensures damaged { (place : ℕ) → IsErrOf result (Damaged place) → StandForNone (drop at bytes.now) }
{
    records_lead();
    spellings_of_commits(MAX_COMPONENTS);
    if at >= bytes.len() as u64 {
        return Ok(None);
    }
    let Some(payload) = first_payload(&bytes[at as usize..]) else {
        return Ok(None);
    };
    match decode_payload(alloc, payload, MAX_COMPONENTS, commit) {
        Ok(()) => Ok(Some(at + record_length(payload))),
        Err(CodecError::NoMemory) => Err(SideError::NoMemory),
        Err(_) => Err(SideError::Damaged(at)),
    }
}
