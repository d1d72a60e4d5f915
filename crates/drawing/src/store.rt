ghost use Rattle.std.specs.Prelude.{◌≡◌, false};
ghost use Rattle.commit.specs.Core.{graph as graph_of, is_halted};

use crate::DrawError;
use crate::drawn::draw_collections;
use commit::{Came, Core, CoreError};
use disk::Disk;
use graph::Graph;
use machine::Counts;
use report::{NamedAddress, NamedInstance};
use std::alloc::{AllocError, Global};
use std::io::Write;
use std::sync::Arc;
use terms::{Addr, Inst, ItemCollection, StepCollection};

/// How many instances that wait are drawn each by itself, unless all are asked for.
pub const MOST_DRAWN: usize = 100;

/// Writes a store as Graphviz text, and returns its disk unchanged. It writes the graph as `draw_graph` does, the counts
/// and the fault of the report as a label, the number of items on each box, and each instance that waits, dashed, with
/// an arrow from the item that it waits for. If more than `MOST_DRAWN` wait, and not all are asked for, they are counted by their step and by the collection of
/// what they wait for, and each count is drawn.
///
/// Nothing is committed. To see what waits, it runs the body of each ready instance.
pub fn draw_store<D: Disk, W: Write>(
    alloc: Global,
    core: Core<D>,
    all: bool,
    out: &mut W,
) -> (D, Result<(), DrawError>)
    requires working { is_halted core ≡ false }
    ensures { result.0 ≡ core.vault.disk }
{
    let mut core = core;
    let drawn = match park_all(alloc, &mut core) {
        Ok(()) => write_store(alloc, &core, all, out),
        Err(_) => Err(DrawError::NoMemory),
    };
    (core.into_disk(), drawn)
}

// Lets each ready instance wait, if it has to.
fn park_all<D: Disk>(alloc: Global, core: &mut Core<D>) -> Result<(), CoreError>
    ensures { core.new.vault ≡ core.old.vault }
{
    core.allow(u64::MAX)?;
    let graph = Arc::clone(core.graph())?;
    // How many were given back. They stand first among the ready ones: a claim moves the first into the place of the
    // one that it takes, and one that is given back goes to the front.
    let mut able: usize = 0;
    for _ in 0..core.ready() {
        if !park(alloc, core, &graph, able)? {
            able = able.saturating_add(1);
        }
    }
    Ok(())
}

// Lets a ready instance wait, if it has to, and returns whether it does.
fn park<D: Disk>(
    alloc: Global,
    core: &mut Core<D>,
    graph: &Graph,
    at: usize,
) -> Result<bool, CoreError>
    requires graph { graph.now ≡ graph_of core.old }
    ensures vault { core.new.vault ≡ core.old.vault }
    ensures graph { graph_of core.new ≡ graph_of core.old }
{
    match core.claim(at) {
        Ok(Some(task)) => match core.run(alloc, graph, &task) {
            Ok(Came::Waits(parked)) => {
                core.park(task, &parked)?;
                Ok(true)
            }
            Ok(Came::Ended(_)) => {
                core.release(task);
                Ok(false)
            }
            Err(error) => {
                core.release(task);
                Err(error)
            }
        },
        Ok(None) => Ok(false),
        Err(error) => Err(error),
    }
}

// Writes what a store holds.
fn write_store<D: Disk, W: Write>(
    alloc: Global,
    core: &Core<D>,
    all: bool,
    out: &mut W,
) -> Result<(), DrawError> {
    writeln!(out, "digraph {{")?;
    write_totals(core, out)?;
    draw_collections(core.graph(), out)?;
    write_counts(core, out)?;
    write_waiting(alloc, core, all, out)?;
    writeln!(out, "}}")?;
    Ok(())
}

// The label: the counts of the report, and the fault.
fn write_totals<D: Disk, W: Write>(core: &Core<D>, out: &mut W) -> Result<(), DrawError> {
    let Counts {
        items,
        tags,
        prescribed,
        done,
    } = core.counts();
    write!(
        out,
        "  label=\"{items} items, {tags} tags, {done} of {prescribed} steps done"
    )?;
    if let Some((instance, kind)) = core.fault() {
        let graph = core.graph();
        let named = NamedInstance { graph, instance };
        let number = kind.number();
        write!(out, "\\nstopped by fault {number} at {named}")?;
    }
    writeln!(out, "\";")?;
    Ok(())
}

// How many items each collection has.
fn write_counts<D: Disk, W: Write>(core: &Core<D>, out: &mut W) -> Result<(), DrawError> {
    let graph = core.graph();
    for number in 0..graph.item_count() {
        let items = ItemCollection(number as u16);
        let name = graph.item_name(items).unwrap_or("");
        let count = count_of(core, items);
        writeln!(out, "  \"[{name}]\" [label=\"[{name}]\\n{count} items\"];")?;
    }
    Ok(())
}

// How many items a collection has.
fn count_of<D: Disk>(core: &Core<D>, items: ItemCollection) -> u64 {
    let mut count: u64 = 0;
    for _ in core.items_of(items) {
        count = count.saturating_add(1);
    }
    count
}

// The instances that wait, by step and then by key; or how many there are.
fn write_waiting<D: Disk, W: Write>(
    alloc: Global,
    core: &Core<D>,
    all: bool,
    out: &mut W,
) -> Result<(), DrawError> {
    let Ok(waiting) = core.blocked(alloc) else {
        return Err(DrawError::NoMemory);
    };
    if !all && waiting.len() > MOST_DRAWN {
        return write_groups(alloc, core.graph(), &waiting, out);
    }
    for entry in &waiting {
        write_wait(core.graph(), entry.0, entry.1, out)?;
    }
    Ok(())
}

// How many instances of each step wait for items of each collection.
fn write_groups<W: Write>(
    alloc: Global,
    graph: &Graph,
    waiting: &[(Inst, Addr)],
    out: &mut W,
) -> Result<(), DrawError> {
    let Ok(counts) = counts_of(alloc, graph, waiting) else {
        return Err(DrawError::NoMemory);
    };
    for step in 0..graph.step_count() {
        for items in 0..graph.item_count() {
            let count = counts
                .get(place_of(graph, step, items))
                .copied()
                .unwrap_or(0);
            let step = StepCollection(step as u16);
            let items = ItemCollection(items as u16);
            if count > 0 {
                write_group(graph, step, items, count, out)?;
            }
        }
    }
    Ok(())
}

// The number of instances of each step that wait for items of each collection, at its place.
fn counts_of(
    alloc: Global,
    graph: &Graph,
    waiting: &[(Inst, Addr)],
) -> Result<Vec<u64>, AllocError> {
    let mut counts = Vec::new(alloc);
    counts.resize(graph.step_count().saturating_mul(graph.item_count()), 0)?;
    for entry in waiting {
        let step = entry.0.collection.0 as usize;
        let items = entry.1.collection.0 as usize;
        if let Some(count) = counts.get_mut(place_of(graph, step, items)) {
            *count = u64::saturating_add(*count, 1);
        }
    }
    Ok(counts)
}

// The place of a step and a collection of items among all such pairs.
fn place_of(graph: &Graph, step: usize, items: usize) -> usize {
    step.saturating_mul(graph.item_count())
        .saturating_add(items)
}

// So many instances of a step, which wait for items of a collection.
fn write_group<W: Write>(
    graph: &Graph,
    step: StepCollection,
    items: ItemCollection,
    count: u64,
    out: &mut W,
) -> Result<(), DrawError> {
    let step = graph.step_name(step).unwrap_or("");
    let items = graph.item_name(items).unwrap_or("");
    writeln!(
        out,
        "  \"({step}) waits for [{items}]\" [label=\"{count} of ({step})\\nwait for [{items}]\", shape=ellipse, style=dashed];"
    )?;
    writeln!(
        out,
        "  \"({step})\" -> \"({step}) waits for [{items}]\" [style=dotted];"
    )?;
    writeln!(
        out,
        "  \"[{items}]\" -> \"({step}) waits for [{items}]\" [style=dashed];"
    )?;
    Ok(())
}

// An instance that waits. An instance without a key is the node of its step, and an address without a key is the node
// of its collection.
fn write_wait<W: Write>(
    graph: &Graph,
    instance: Inst,
    address: Addr,
    out: &mut W,
) -> Result<(), DrawError> {
    let step = graph.step_name(instance.collection).unwrap_or("");
    let waits = NamedInstance { graph, instance };
    let at = NamedAddress { graph, address };
    if !instance.key.components().is_empty() {
        writeln!(out, "  \"{waits}\" [shape=ellipse, style=dashed];")?;
        writeln!(out, "  \"({step})\" -> \"{waits}\" [style=dotted];")?;
    }
    if !address.key.components().is_empty() {
        writeln!(out, "  \"{at}\" [shape=box, style=dashed];")?;
    }
    writeln!(out, "  \"{at}\" -> \"{waits}\" [style=dashed];")?;
    Ok(())
}
