//! The first of a side's commits.
ghost use Rattle.std.specs.Prelude.{◌≡◌, ◌<◌, ◌≤◌, ℕ, List, length, take, drop};
ghost use Rattle.journal.specs.Records.{records, StandsFor};
ghost use Rattle.sides.specs.First.{LeavesFirst, KeepsFirst};

use crate::law::sides_go_on;
use graph::fitting;
use journal::{first_payload, record_length, records_lead};

/// Makes of a side's bytes those of the side with the first `count` of its commits alone: it closes the gate after them. If the side has
/// no more commits, it stands for what it stood for. The side's journal begins at `start`.
pub fn close_behind(bytes: &mut [u8], start: u64, count: u64)
    ensures first { LeavesFirst count start bytes.old bytes.new }
{
    fitting();
    sides_go_on();
    let start = start as usize;
    if start < bytes.len() {
        close_gate(bytes, start, count);
    }
}

// Closes the gate after the records of the first `count` payloads that the bytes from `start` on stand for.
fn close_gate(bytes: &mut [u8], start: usize, count: u64)
    requires { start < length bytes.old }
    ensures front { take start bytes.new ≡ take start bytes.old }
    ensures stands { KeepsFirst count (drop start bytes.old) (drop start bytes.new) }
{
    let end = start + first_end(&bytes[start..], count);
    if end < bytes.len() {
        bytes[end] = 0;
    }
}

// Where the records of the first `count` payloads end, or those of all if there are no more.
fn first_end(bytes: &[u8], count: u64) -> usize
    ensures first { (payloads : List (List ℕ)) → StandsFor bytes.now payloads → result ≡ length (records (take count payloads)) }
    ensures within { result ≤ length bytes.now }
{
    records_lead();
    let mut end = 0;
    let mut left = count;
    while left > 0 {
        let Some(payload) = first_payload(&bytes[end..]) else {
            return end;
        };
        end += record_length(payload) as usize;
        left -= 1;
    }
    end
}
