ghost use Rattle.std.specs.Prelude.{◌≡◌, IfOk};
ghost use Rattle.std.specs.List.{filter_map};
ghost use Rattle.instances.specs.Listed.{if_waiting, if_done};

use crate::{InstanceWalk, State};
use std::alloc::{AllocError, Global};
use terms::{Addr, Inst};

/// The instances of a walk that wait, each with its address.
pub(crate) fn waiting(
    walk: InstanceWalk<'_>,
    alloc: Global,
) -> Result<Vec<(Inst, Addr)>, AllocError>
    ensures { IfOk result (λ list. list.items ≡ filter_map (λ entry. if_waiting entry.0 entry.1) walk.entry) }
{
    walk.filter_map(|(inst, state)| waiting_entry(inst, state))
        .collect(alloc)
}

/// The instances of a walk that are done.
pub(crate) fn done(walk: InstanceWalk<'_>, alloc: Global) -> Result<Vec<Inst>, AllocError>
    ensures { IfOk result (λ list. list.items ≡ filter_map (λ entry. if_done entry.0 entry.1) walk.entry) }
{
    walk.filter_map(|(inst, state)| done_entry(inst, state))
        .collect(alloc)
}

// An instance that waits, with its address.
fn waiting_entry(inst: Inst, state: State) -> Option<(Inst, Addr)>
    ensures { result ≡ if_waiting inst state }
{
    match state {
        State::Waiting(addr) => Some((inst, addr)),
        _ => None,
    }
}

/// An instance that is done.
pub(crate) fn done_entry(inst: Inst, state: State) -> Option<Inst>
    ensures { result ≡ if_done inst state }
{
    match state {
        State::Done => Some(inst),
        _ => None,
    }
}
