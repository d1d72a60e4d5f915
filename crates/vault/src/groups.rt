//! How a commit is spelled, of any number of events.
ghost use Rattle.std.specs.Prelude.{◌≡◌, ◌≤◌, ◌++◌, length, OnOk};
ghost use Rattle.std.specs.List.{AllByRecursion};
ghost use Rattle.codec.specs.Commits.{IsCommit, commit_bytes};
ghost use Rattle.codec.specs.Spelling.{HasFewPuts};
ghost use Rattle.journal.specs.Records.{record_of};
ghost use Rattle.terms.specs.declared.key.TheConstants.{MAX_COMPONENTS};
ghost use Rattle.vault.specs.Groups.{groups_of, records_of};

use codec::{MOST_EVENTS, encode_payload};
use journal::{begin_record, end_record};
use std::alloc::AllocError;
use terms::Event;

/// Adds the records of a commit: of up to 64 events each, in their order, and the first one may have fewer.
pub(crate) fn spell_records(out: &mut Vec<u8>, commit: &[Event]) -> Result<(), AllocError>
    requires { AllByRecursion HasFewPuts commit.now }
    ensures spelled { OnOk result (out.new.items ≡ out.old.items ++ records_of commit.now) }
    ensures in_range { OnOk result (AllByRecursion (IsCommit MAX_COMPONENTS) (groups_of commit.now)) }
{
    let mut start = 0;
    while start < commit.len() {
        let count = (commit.len() - start - 1) % MOST_EVENTS + 1;
        spell_record(out, &commit[start..start + count])?;
        start += count;
    }
    Ok(())
}

// Adds the record of a group of events.
fn spell_record(out: &mut Vec<u8>, group: &[Event]) -> Result<(), AllocError>
    requires some { 1 ≤ length group.now }
    requires few { length group.now ≤ MOST_EVENTS }
    requires puts { AllByRecursion HasFewPuts group.now }
    ensures spelled { OnOk result (out.new.items ≡ out.old.items ++ record_of (commit_bytes group.now)) }
    ensures in_range { OnOk result (IsCommit MAX_COMPONENTS group.now) }
{
    let place = begin_record(out)?;
    encode_payload(out, group)?;
    end_record(out, place);
    Ok(())
}
