//! One instance, run anew over what was replayed.
ghost use Rattle.std.specs.Prelude.{◌≡◌, ◌↔◌, ◌≤◌, true, false, IfOk, IsTrue, OnOk, length};
ghost use Rattle.terms.specs.declared.put.TheConstants.{MOST_PUTS};
ghost use Rattle.terms.specs.Facts.{done, item, put_fact, tag as name};
ghost use Rattle.graph.specs.Fits.{IsPrescribed};
ghost use Rattle.machine.specs.Meaning.{BodyGives};
ghost use Rattle.machine.specs.Machine.{facts};
ghost use Rattle.machine.specs.Marked.{marked};
ghost use Rattle.audit.specs.Replayed.{HasAll, IsReplayed, TriedAs};

use crate::bodies::run_body;
use crate::hints::Hints;
use crate::marking::mark_end;
use crate::tried::Tried;
use commit::{Came, Outcome};
use graph::Graph;
use machine::{Machine, Marks, given_are_of_graph, reached_goes_on, results_are_meant};
use maps::Hint;
use std::alloc::{AllocError, Global};
use steptree::ends_once;
use terms::{Addr, Inst, Producer, Put, Puts, Tag, facts_are_told_apart};

/// Tries to replay an instance that is done in the store. It is replayed if a marked tag prescribes it, its body ends with puts over the items that are marked, and the
/// store has all of them. They are marked then, and so is the instance.
pub(crate) fn try_one(
    alloc: Global,
    store: &Machine,
    graph: &Graph,
    marks: &mut Marks<'_>,
    inst: Inst,
    hints: &mut Hints,
) -> Result<Tried, AllocError>
    requires graph { graph.now ≡ store.now.graph }
    requires done { facts store.now (done inst) ≡ true }
    requires replayed { IsReplayed store.now marks.old }
    ensures replayed { OnOk result (IsReplayed store.now marks.new) }
    ensures tried { IfOk result (TriedAs store.now marks.old marks.new inst) }
{
    facts_are_told_apart();
    results_are_meant();
    ends_once();
    store.is_kept();
    let name = inst;
    if is_marked(marks, name, &mut hints.done) {
        return Ok(Tried::AsBefore);
    }
    let one = inst;
    if !is_prescribed(graph, marks, one, &mut hints.prescribers) {
        return Ok(Tried::AsBefore);
    }
    let its = inst;
    match run_body(alloc, marks, graph, its, &mut hints.reads)? {
        Came::Ended(Outcome::Gave(given)) => Ok(end(store, marks, inst, given.into_puts(), hints)),
        Came::Ended(Outcome::Fault(bad)) => {
            drop(bad);
            Ok(Tried::AsBefore)
        }
        Came::Waits(parked) => {
            let address = parked.address();
            drop(parked);
            Ok(Tried::Waits(address))
        }
    }
}

// Whether an instance is marked.
fn is_marked(marks: &Marks<'_>, inst: Inst, hint: &mut Hint) -> bool
    ensures { result ≡ marked marks.now (done inst) }
{
    marks.is_part();
    match marks.done(inst, hint) {
        Some(mark) => mark,
        None => false,
    }
}

// Whether a tag that is marked prescribes an instance.
fn is_prescribed(graph: &Graph, marks: &Marks<'_>, inst: Inst, hint: &mut Hint) -> bool
    ensures { IsTrue result ↔ IsPrescribed graph.now (marked marks.now) inst }
{
    match graph.prescriber(inst.collection) {
        Some(collection) => {
            let key = inst.key;
            is_tag_marked(marks, Tag { collection, key }, hint)
        }
        None => false,
    }
}

// Whether a tag is marked.
fn is_tag_marked(marks: &Marks<'_>, tag: Tag, hint: &mut Hint) -> bool
    ensures { result ≡ marked marks.now (name tag) }
{
    marks.is_part();
    match marks.tag(tag, hint) {
        Some((_, mark)) => mark,
        None => false,
    }
}

// Replays an instance whose body gave these puts, if the store has them all.
fn end(store: &Machine, marks: &mut Marks<'_>, inst: Inst, puts: Puts, hints: &mut Hints) -> Tried
    requires done { facts store.now (done inst) ≡ true }
    requires left { marked marks.old (done inst) ≡ false }
    requires replayed { IsReplayed store.now marks.old }
    requires prescribed { IsPrescribed store.now.graph (marked marks.old) inst }
    requires gives { BodyGives store.now.graph (marked marks.old) inst puts }
    ensures replayed { IsReplayed store.now marks.new }
    ensures tried { TriedAs store.now marks.old marks.new inst result }
{
    facts_are_told_apart();
    reached_goes_on();
    given_are_of_graph();
    ends_once();
    store.is_kept();
    let by = inst;
    if !has_all(store, by, puts.as_slice(), hints) {
        return Tried::AsBefore;
    }
    mark_end(marks, inst, puts.as_slice(), hints);
    Tried::Replayed(puts)
}

// Whether the store has all that these puts of an instance state.
fn has_all(store: &Machine, inst: Inst, puts: &[Put], hints: &mut Hints) -> bool
    requires { length puts.now ≤ MOST_PUTS }
    ensures { IsTrue result ↔ HasAll (facts store.now) inst puts.now }
{
    for number in 0..puts.len() {
        let by = inst;
        if !has_put(store, by, number as u32, &puts[number], hints) {
            return false;
        }
    }
    true
}

// Whether the store has what a put of an instance states; `number` is the put's number.
fn has_put(store: &Machine, inst: Inst, number: u32, put: &Put, hints: &mut Hints) -> bool
    ensures { result ≡ facts store.now (put_fact inst number put.now) }
{
    match put {
        Put::Item(addr, value) => {
            let by = Producer::By(inst, number);
            has_item(store, *addr, *value, by, &mut hints.items)
        }
        Put::Tag(tag) => store.mark_near(*tag, &mut hints.tags).is_some(),
    }
}

// Whether an item is there with this value and by this producer. It looks first where the hint says.
fn has_item(store: &Machine, addr: Addr, value: i64, producer: Producer, hint: &mut Hint) -> bool
    ensures { result ≡ facts store.now (item addr value producer) }
{
    match store.item_near(addr, hint) {
        Some((there, by)) => there == value && by.cmp(&producer).is_eq(),
        None => false,
    }
}
