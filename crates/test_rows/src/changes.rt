//! One change of what a store holds, at random: its lists stay in order.
use crate::contents::Contents;
use crate::random::Random;
use crate::random_stores::{some_address, some_key, some_tag, some_value};
use graph::Graph;
use std::alloc::AllocError;
use terms::{FaultKind, Inst, Producer, StepCollection};

/// What was changed.
#[derive(Clone, Copy, Debug, PartialEq, Eq)]
pub(crate) enum Change {
    /// The value of an item.
    Value,
    /// The producer of an item.
    Producer,
    /// An item is there that was not, or not there any more.
    Item,
    /// The same of a tag, or who put it.
    Tag,
    /// An instance is done that was not, or not done any more.
    Done,
    /// There is a fault, or none, or another one.
    Fault,
}

impl Change {
    /// What was changed, in words.
    pub(crate) fn word(self) -> &'static str {
        match self {
            Change::Value => "value",
            Change::Producer => "producer",
            Change::Item => "set of items",
            Change::Tag => "tag",
            Change::Done => "done instance",
            Change::Fault => "fault",
        }
    }
}

/// All kinds of change.
pub(crate) const CHANGES: [Change; 6] = [
    Change::Value,
    Change::Producer,
    Change::Item,
    Change::Tag,
    Change::Done,
    Change::Fault,
];

// How often a change is tried.
const TRIES: u32 = 100;

/// Makes one change. Returns which, or `None` if each that was tried would have changed nothing.
pub(crate) fn make_change(
    graph: &Graph,
    store: &mut Contents,
    random: &mut Random,
) -> Result<Option<Change>, AllocError> {
    for _ in 0..TRIES {
        let kind = CHANGES[random.below(CHANGES.len())];
        if make(kind, graph, store, random)? {
            return Ok(Some(kind));
        }
    }
    Ok(None)
}

// Makes a change of this kind. Returns whether anything changed.
fn make(
    kind: Change,
    graph: &Graph,
    store: &mut Contents,
    random: &mut Random,
) -> Result<bool, AllocError> {
    match kind {
        Change::Value => Ok(change_value(store, random)),
        Change::Producer => Ok(change_producer(store, random)),
        Change::Item => change_item(graph, store, random),
        Change::Tag => change_tag(graph, store, random),
        Change::Done => change_done(graph, store, random),
        Change::Fault => Ok(change_fault(graph, store, random)),
    }
}

fn change_value(store: &mut Contents, random: &mut Random) -> bool {
    if store.items.is_empty() {
        return false;
    }
    let place = random.below(store.items.len());
    let value = some_value(random);
    let is_other = store.items[place].1 != value;
    store.items[place].1 = value;
    is_other
}

fn change_producer(store: &mut Contents, random: &mut Random) -> bool {
    if store.items.is_empty() {
        return false;
    }
    let place = random.below(store.items.len());
    let producer = some_producer(store, random);
    let is_other = store.items[place].2 != producer;
    store.items[place].2 = producer;
    is_other
}

// The environment, or one of the first puts of a done instance.
fn some_producer(store: &Contents, random: &mut Random) -> Producer {
    if store.done.is_empty() || random.below(4) == 0 {
        return Producer::Env;
    }
    let place = random.below(store.done.len());
    Producer::By(store.done[place], random.below(3) as u32)
}

fn change_item(
    graph: &Graph,
    store: &mut Contents,
    random: &mut Random,
) -> Result<bool, AllocError> {
    if !store.items.is_empty() && random.below(2) == 0 {
        let place = random.below(store.items.len());
        store.items.remove(place);
        return Ok(true);
    }
    match some_address(graph, random) {
        Some(address) => {
            let producer = some_producer(store, random);
            store.add_item((address, some_value(random), producer))
        }
        None => Ok(false),
    }
}

fn change_tag(
    graph: &Graph,
    store: &mut Contents,
    random: &mut Random,
) -> Result<bool, AllocError> {
    if store.tags.is_empty() || random.below(4) == 0 {
        return add_tag(graph, store, random);
    }
    let place = random.below(store.tags.len());
    if random.below(3) == 0 {
        store.tags.remove(place);
    } else {
        store.tags[place].1 = !store.tags[place].1;
    }
    Ok(true)
}

fn add_tag(graph: &Graph, store: &mut Contents, random: &mut Random) -> Result<bool, AllocError> {
    match some_tag(graph, random) {
        Some(tag) => store.add_tag((tag, random.below(2) == 0)),
        None => Ok(false),
    }
}

fn change_done(
    graph: &Graph,
    store: &mut Contents,
    random: &mut Random,
) -> Result<bool, AllocError> {
    if !store.done.is_empty() && random.below(2) == 0 {
        let place = random.below(store.done.len());
        store.done.remove(place);
        return Ok(true);
    }
    match some_instance(graph, store, random) {
        Some(instance) => store.add_done(instance),
        None => Ok(false),
    }
}

fn change_fault(graph: &Graph, store: &mut Contents, random: &mut Random) -> bool {
    let fault = some_fault(graph, store, random);
    let is_other = store.fault != fault;
    store.fault = fault;
    is_other
}

// No fault, or some fault, of the instance that is at fault or of another one.
fn some_fault(graph: &Graph, store: &Contents, random: &mut Random) -> Option<(Inst, FaultKind)> {
    let kind = some_kind(random);
    match (&store.fault, random.below(3)) {
        (_, 0) => None,
        (Some((instance, _)), 1) => Some((*instance, kind)),
        _ => Some((some_instance(graph, store, random)?, kind)),
    }
}

fn some_kind(random: &mut Random) -> FaultKind {
    match random.below(5) {
        0 => FaultKind::Overflow,
        1 => FaultKind::DivisionByZero,
        2 => FaultKind::Budget,
        3 => FaultKind::DoublePut,
        _ => FaultKind::TooManyPuts,
    }
}

// An instance that a tag of the store prescribes; or, of eight times once, any.
fn some_instance(graph: &Graph, store: &Contents, random: &mut Random) -> Option<Inst> {
    if store.tags.is_empty() || random.below(8) == 0 {
        return any_instance(graph, random);
    }
    let place = random.below(store.tags.len());
    let tag = &store.tags[place].0;
    let steps = graph.prescribed_by(tag.collection);
    if steps.is_empty() {
        return None;
    }
    let collection = steps[random.below(steps.len())];
    let key = tag.key;
    Some(Inst { collection, key })
}

// An instance of the graph, if it has any.
fn any_instance(graph: &Graph, random: &mut Random) -> Option<Inst> {
    let count = graph.step_count();
    if count == 0 {
        return None;
    }
    let collection = StepCollection(random.below(count) as u16);
    let parameters = graph.step_parameters(collection)?;
    let key = some_key(parameters, random);
    Some(Inst { collection, key })
}
