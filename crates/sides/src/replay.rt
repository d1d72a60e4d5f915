ghost use Rattle.std.specs.Prelude.{◌≡◌, false, IsTrue, IfOk};
ghost use Rattle.holdings.specs.Holdings.{HavePutNumbers, IsFor, image_of};
ghost use Rattle.sides.specs.Replaying.{IsTaken, IsRefused, Replays, IsNumbered, IsWithin};

use crate::taking::take_all;
use codec::{CodecError, decode_payload, spellings_of_commits};
use graph::{Graph, fitting};
use holdings::{Hints, Holdings};
use journal::{begins_closed, first_payload, record_length, records_lead};
use std::alloc::{AllocError, Global};
use terms::{Event, MAX_COMPONENTS, facts_are_told_apart, facts_go_on};

/// How far the commits of a journal were taken.
#[derive(Clone, Copy)]
pub(crate) enum Replay {
    /// All of them, up to the closed gate at this position.
    Ended(usize),
    /// Up to the gate of the first record that is not whole, is no commit or does not fit, or to where the closed gate is missing.
    Broken(usize),
}

/// Takes the commits of a journal one after another.
pub(crate) fn take_commits(
    alloc: Global,
    graph: &Graph,
    holdings: &mut Holdings,
    journal: &[u8],
) -> Result<Replay, AllocError>
    requires numbered { HavePutNumbers holdings.old }
    requires collections { IsFor graph.now holdings.old }
    ensures commits { IfOk result (Replays graph.now holdings.old holdings.new journal.now) }
    ensures within { IfOk result (IsWithin journal.now) }
    ensures numbered { IfOk result (IsNumbered holdings.new) }
{
    facts_are_told_apart();
    facts_go_on();
    fitting();
    spellings_of_commits(MAX_COMPONENTS);
    records_lead();
    let mut commit = Vec::new(alloc);
    let mut hints = Hints::new();
    let mut end = 0;
    while let Some(payload) = first_payload(&journal[end..]) {
        if !take_commit(alloc, graph, holdings, &mut commit, payload, &mut hints)? {
            return Ok(Replay::Broken(end));
        }
        end += record_length(payload) as usize;
    }
    if begins_closed(&journal[end..]) {
        Ok(Replay::Ended(end))
    } else {
        Ok(Replay::Broken(end))
    }
}

// Takes the commit that a payload spells, which it reads into `commit`. Returns whether the payload spells one that fits.
fn take_commit(
    alloc: Global,
    graph: &Graph,
    holdings: &mut Holdings,
    commit: &mut Vec<Event>,
    payload: &[u8],
    hints: &mut Hints,
) -> Result<bool, AllocError>
    requires numbered { HavePutNumbers holdings.old }
    requires collections { IsFor graph.now holdings.old }
    ensures taken { IfOk result (λ taken. IsTrue taken → IsTaken graph.now holdings.old holdings.new payload.now) }
    ensures refused { IfOk result (λ taken. taken ≡ false → IsRefused graph.now (image_of holdings.old) payload.now) }
    ensures numbered { IfOk result (λ taken. IsTrue taken → HavePutNumbers holdings.new) }
{
    spellings_of_commits(MAX_COMPONENTS);
    match decode_payload(alloc, payload, MAX_COMPONENTS, commit) {
        Ok(()) => Ok(take_all(holdings, graph, commit, hints)?),
        Err(CodecError::NoMemory) => Err(AllocError),
        Err(_) => Ok(false),
    }
}
