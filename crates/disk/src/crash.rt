ghost use Rattle.std.specs.Prelude.{◌≡◌, ◌≤◌, ◌+◌, ℕ, IsTrue, ◌↔◌, length, nat_lt};
ghost use Rattle.std.specs.Option.{option_copied};
ghost use Rattle.disk.specs.File.{MayLeave};
ghost use Rattle.disk.specs.Calls.{durable_of};
ghost use Rattle.disk.specs.Crash.{call_syncs, call_touches, calls_touch, TouchedSince};

use crate::Side;
use crate::record::{Call, Change};

/// Whether a crash after these calls may leave these bytes of a file.
pub(crate) fn may_leave(calls: &[Call], side: Side, bytes: &[u8]) -> bool
    ensures { IsTrue result ↔ MayLeave (durable_of calls.now side) bytes.now }
{
    let (synced, since) = last_sync(calls, side);
    if bytes.len() != synced.len() && !any_touches_the_end(synced, side, since) {
        return false;
    }
    for position in 0..bytes.len().max(synced.len()) {
        if bytes.get(position) != synced.get(position)
            && !any_touches(synced, side, since, position as u64)
        {
            return false;
        }
    }
    true
}

/// The bytes that the last sync of a file made durable, and the calls since.
pub(crate) fn last_sync(calls: &[Call], side: Side) -> (&[u8], &[Call])
    ensures { TouchedSince (durable_of calls.now side) side result.0.now result.1.now }
{
    let mut synced: &[u8] = &[];
    let mut behind = 0;
    for (index, call) in calls.iter().enumerate() {
        if let Some(content) = syncs(side, call) {
            synced = content;
            behind = index + 1;
        }
    }
    (synced, &calls[behind..])
}

// The bytes that a call made durable, if it is a sync of the file.
fn syncs(side: Side, call: &Call) -> Option<&[u8]>
    ensures { option_copied result ≡ call_syncs side call.now }
{
    match &call.change {
        Change::Sync { content } if call.side == side => Some(content),
        _ => None,
    }
}

/// Whether one of these calls touches a position.
pub(crate) fn any_touches(synced: &[u8], side: Side, calls: &[Call], position: u64) -> bool
    ensures { result ≡ calls_touch synced.now side calls.now position }
{
    calls
        .iter()
        .any(|call| touches(synced, side, call, position))
}

// Whether one of these calls touches anything from the synced end on.
fn any_touches_the_end(synced: &[u8], side: Side, calls: &[Call]) -> bool
    ensures { IsTrue result ↔ ((at : ℕ) × (length synced.now ≤ at) × IsTrue (calls_touch synced.now side calls.now at)) }
{
    for call in calls {
        if touches_the_end(synced, side, call) {
            return true;
        }
    }
    false
}

// Whether a call touches a position.
fn touches(synced: &[u8], side: Side, call: &Call, position: u64) -> bool
    ensures { result ≡ call_touches synced.now side call.now position }
{
    let end = synced.len() as u64;
    call.side == side
        && match &call.change {
            Change::Nothing | Change::Sync { .. } => false,
            Change::Write { at, count } => {
                (*at <= position && reaches_past(*at, *count, position))
                    || (reaches_past(*at, *count, end) && end <= position)
            }
            Change::Cut { count } => *count <= position,
        }
}

// Whether a call touches anything from the synced end on: every cut does, and so does a write that reaches past that
// end.
fn touches_the_end(synced: &[u8], side: Side, call: &Call) -> bool
    ensures { IsTrue result ↔ ((at : ℕ) × (length synced.now ≤ at) × IsTrue (call_touches synced.now side call.now at)) }
{
    call.side == side
        && match &call.change {
            Change::Nothing | Change::Sync { .. } => false,
            Change::Write { at, count } => reaches_past(*at, *count, synced.len() as u64),
            Change::Cut { .. } => true,
        }
}

// Whether `count` bytes from `at` on reach past `position`.
fn reaches_past(at: u64, count: u64, position: u64) -> bool
    ensures { result ≡ nat_lt position (at + count) }
{
    at > position || count > position - at
}
