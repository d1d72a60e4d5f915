//! Whether legal events lead to what a store holds. It is decided slowly, and by the definition alone: what the environment
//! put comes first, then what the done instances put, one after another, until no more comes.
//!
//! It looks at the graph, and lets the evaluator run the bodies. It calls no certificate, and nothing that keeps a store.
use crate::contents::Contents;
use graph::Graph;
use std::alloc::{AllocError, Global};
use steplang::{Run, Turn};
use terms::{Addr, FaultKind, Inst, Producer, Put, Tag};

// How a body ends over the items that have come.
#[derive(Clone, Copy)]
enum Ending {
    Gives,
    Faults(FaultKind),
    // It asks for an item that has not come, or there is no such body.
    Waits,
}

/// Whether some legal events lead from an empty store of the graph to this one, and the environment put just the items without another
/// producer, and the tags that are marked. Each address, tag and instance is listed once.
pub(crate) fn events_lead_to(
    alloc: Global,
    graph: &Graph,
    store: &Contents,
) -> Result<bool, AllocError> {
    let mut come = Contents::new(alloc);
    if !put_items(graph, store, &mut come)? || !put_tags(graph, store, &mut come)? {
        return Ok(false);
    }
    end_all(alloc, graph, store, &mut come)?;
    if !have_all_come(store, &come) {
        return Ok(false);
    }
    match &store.fault {
        Some((instance, kind)) => is_at_fault(alloc, graph, &come, instance, *kind),
        None => Ok(true),
    }
}

// Puts the items of the environment. Returns whether it may put them all.
fn put_items(graph: &Graph, store: &Contents, come: &mut Contents) -> Result<bool, AllocError> {
    for item in &store.items {
        if item.2 == Producer::Env {
            if !graph.environment_puts_item(&item.0) || come.item(&item.0).is_some() {
                return Ok(false);
            }
            come.items.push(*item)?;
        }
    }
    Ok(true)
}

// Puts the tags of the environment. Returns whether it may put them all.
fn put_tags(graph: &Graph, store: &Contents, come: &mut Contents) -> Result<bool, AllocError> {
    for tag in &store.tags {
        if tag.1 {
            if !graph.environment_puts_tag(&tag.0) || come.has_tag(&tag.0) {
                return Ok(false);
            }
            come.tags.push(*tag)?;
        }
    }
    Ok(true)
}

// Ends instances of the store until no more can end. Each round but the last ends one at least.
fn end_all(
    alloc: Global,
    graph: &Graph,
    store: &Contents,
    come: &mut Contents,
) -> Result<(), AllocError> {
    for _ in 0..store.done.len() {
        let before = come.done.len();
        for instance in &store.done {
            end(alloc, graph, store, come, instance)?;
        }
        if come.done.len() == before {
            break;
        }
    }
    Ok(())
}

// Ends an instance, if it may end now, and the store has all that its body puts.
fn end(
    alloc: Global,
    graph: &Graph,
    store: &Contents,
    come: &mut Contents,
    instance: &Inst,
) -> Result<(), AllocError> {
    if !may_end(graph, come, instance) {
        return Ok(());
    }
    let mut puts = Vec::new(alloc);
    match run_body(alloc, graph, come, instance, &mut puts)? {
        Ending::Gives if has_all(store, instance, &puts) && are_new(come, &puts) => {
            take_end(come, instance, &puts)
        }
        _ => Ok(()),
    }
}

// Whether an instance is prescribed and not done.
fn may_end(graph: &Graph, come: &Contents, instance: &Inst) -> bool {
    let key = instance.key;
    match graph.prescriber(instance.collection) {
        Some(collection) => come.has_tag(&Tag { collection, key }) && !come.is_done(instance),
        None => false,
    }
}

// Whether the store has what these puts of an instance state.
fn has_all(store: &Contents, instance: &Inst, puts: &[Put]) -> bool {
    for (number, put) in puts.iter().enumerate() {
        let is_there = match put {
            Put::Item(address, value) => {
                store.has_item(&(*address, *value, producer(instance, number)))
            }
            Put::Tag(tag) => store.has_tag(tag),
        };
        if !is_there {
            return false;
        }
    }
    true
}

// Whether none of these puts is an item at an address that has one, or that another of them has.
fn are_new(come: &Contents, puts: &[Put]) -> bool {
    for (number, put) in puts.iter().enumerate() {
        if let Put::Item(address, _) = put {
            if come.item(address).is_some() || is_put(address, &puts[..number]) {
                return false;
            }
        }
    }
    true
}

fn is_put(address: &Addr, puts: &[Put]) -> bool {
    puts.iter().any(|put| match put {
        Put::Item(other, _) => other == address,
        Put::Tag(_) => false,
    })
}

// Adds that an instance is done, and its puts.
fn take_end(come: &mut Contents, instance: &Inst, puts: &[Put]) -> Result<(), AllocError> {
    come.done.push(*instance)?;
    for (number, put) in puts.iter().enumerate() {
        match put {
            Put::Item(address, value) => {
                come.items
                    .push((*address, *value, producer(instance, number)))?;
            }
            Put::Tag(tag) => {
                if !come.has_tag(tag) {
                    come.tags.push((*tag, false))?;
                }
            }
        }
    }
    Ok(())
}

// An instance, as the producer of its put with this number.
fn producer(instance: &Inst, number: usize) -> Producer {
    Producer::By(*instance, u32::try_from(number).unwrap_or(u32::MAX))
}

// Whether all that the store holds has come, but for its fault.
fn have_all_come(store: &Contents, come: &Contents) -> bool {
    store.items.iter().all(|item| come.has_item(item))
        && store.tags.iter().all(|tag| come.has_tag(&tag.0))
        && store.done.iter().all(|instance| come.is_done(instance))
}

// Whether an instance may stop by this fault.
fn is_at_fault(
    alloc: Global,
    graph: &Graph,
    come: &Contents,
    instance: &Inst,
    kind: FaultKind,
) -> Result<bool, AllocError> {
    if !may_end(graph, come, instance) {
        return Ok(false);
    }
    let mut puts = Vec::new(alloc);
    match run_body(alloc, graph, come, instance, &mut puts)? {
        Ending::Gives => Ok(kind == FaultKind::DoublePut && !are_new(come, &puts)),
        Ending::Faults(found) => Ok(found == kind),
        Ending::Waits => Ok(false),
    }
}

// Runs the body of an instance over the items that have come. Its puts go into an empty list.
fn run_body(
    alloc: Global,
    graph: &Graph,
    come: &Contents,
    instance: &Inst,
    puts: &mut Vec<Put>,
) -> Result<Ending, AllocError> {
    let Some(checked) = graph.body(instance.collection) else {
        return Ok(Ending::Waits);
    };
    if checked.parameters != instance.key.components().len() {
        return Ok(Ending::Waits);
    }
    let mut run = Run::start(alloc, checked, *instance)?;
    let turn = run.advance(None);
    match ending_of(turn, puts)? {
        Some(ending) => Ok(ending),
        None => go_on(&mut run, come, puts),
    }
}

// Gives a run the items that it asks for, to its end or to one that has not come.
fn go_on(run: &mut Run<'_>, come: &Contents, puts: &mut Vec<Put>) -> Result<Ending, AllocError> {
    for _ in 0..u64::MAX {
        let Some(address) = run.pending() else {
            break;
        };
        let Some(item) = come.item(&address) else {
            break;
        };
        let turn = run.advance(Some(item.1));
        if let Some(ending) = ending_of(turn, puts)? {
            return Ok(ending);
        }
    }
    Ok(Ending::Waits)
}

// How a body ends by a turn, if it does. Its puts go into the list.
fn ending_of(
    turn: Result<Turn<'_>, AllocError>,
    puts: &mut Vec<Put>,
) -> Result<Option<Ending>, AllocError> {
    match turn {
        Ok(Turn::Need(_)) => Ok(None),
        Ok(Turn::Gave(given)) => {
            *puts = given.into_puts().into_vec();
            Ok(Some(Ending::Gives))
        }
        Ok(Turn::Fault(bad)) => Ok(Some(Ending::Faults(bad.kind()))),
        Err(error) => Err(error),
    }
}
