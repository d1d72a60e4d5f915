//! The fault of a store, beside what was replayed of it.
ghost use Rattle.std.specs.Prelude.{◌≡◌, ◌↔◌, ◌≤◌, IfOk, IsTrue, MatchBool, length};
ghost use Rattle.terms.specs.declared.put.TheConstants.{MOST_PUTS};
ghost use Rattle.graph.specs.Fits.{AreNew, InstanceIsOf};
ghost use Rattle.machine.specs.Legal.{Conflicts, IsAtFault};
ghost use Rattle.machine.specs.Marked.{marked};
ghost use Rattle.audit.specs.Free.{AreAllFree, IsFree, IsOneTaken, IsTaken};
ghost use Rattle.audit.specs.Replayed.{IsReplayed};

use crate::bodies::{run_body, value_at};
use commit::{Came, Outcome};
use graph::Graph;
use machine::{Machine, Marks, results_are_meant};
use maps::Hint;
use std::alloc::{AllocError, Global};
use std::sync::Arc;
use steptree::ends_once;
use terms::{FaultKind, Inst, Put, facts_are_told_apart};

/// Whether an instance is at fault so, over what was replayed.
pub(crate) fn is_at_fault(
    alloc: Global,
    store: &Machine,
    graph: &Graph,
    marks: &Marks<'_>,
    inst: Inst,
    kind: FaultKind,
) -> Result<bool, AllocError>
    requires graph { graph.now ≡ store.now.graph }
    requires replayed { IsReplayed store.now marks.now }
    requires instance { InstanceIsOf store.now.graph inst }
    ensures { IfOk result (λ is. IsTrue is ↔ IsAtFault store.now.graph (marked marks.now) inst kind) }
{
    facts_are_told_apart();
    results_are_meant();
    ends_once();
    let mut hint = Hint::new();
    match run_body(alloc, marks, graph, inst, &mut hint)? {
        Came::Ended(Outcome::Gave(given)) => match kind {
            FaultKind::DoublePut => conflict(alloc, store, marks, given.puts().as_slice()),
            _ => Ok(false),
        },
        Came::Ended(Outcome::Fault(bad)) => Ok(bad.kind().number() == kind.number()),
        Came::Waits(parked) => {
            // What is known of it: its body asks for the item.
            parked.address();
            drop(parked);
            Ok(false)
        }
    }
}

// Whether an item of these puts is at an address where one is marked, or two of them are at one address. An empty store of the graph tells the second.
fn conflict(
    alloc: Global,
    store: &Machine,
    marks: &Marks<'_>,
    puts: &[Put],
) -> Result<bool, AllocError>
    requires { length puts.now ≤ MOST_PUTS }
    ensures { IfOk result (λ is. MatchBool is (Conflicts (marked marks.now) puts.now) (AreNew (marked marks.now) puts.now)) }
{
    let graph = Arc::clone(store.graph())?;
    let mut empty = Machine::new(alloc, graph)?;
    if !empty.are_new(puts) {
        return Ok(true);
    }
    Ok(!are_free(marks, puts))
}

// Whether no marked item is at an address of these puts.
fn are_free(marks: &Marks<'_>, puts: &[Put]) -> bool
    ensures { MatchBool result (AreAllFree (marked marks.now) puts.now) (IsOneTaken (marked marks.now) puts.now) }
{
    let mut hint = Hint::new();
    for number in 0..puts.len() {
        if !is_free(marks, &puts[number], &mut hint) {
            return false;
        }
    }
    true
}

// The same for one put.
fn is_free(marks: &Marks<'_>, put: &Put, hint: &mut Hint) -> bool
    ensures { MatchBool result (IsFree (marked marks.now) put.now) (IsTaken (marked marks.now) put.now) }
{
    match put {
        Put::Item(addr, _) => value_at(marks, *addr, hint).is_none(),
        Put::Tag(_) => true,
    }
}
