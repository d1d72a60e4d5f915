use graph::Graph;
use std::io::{Result, Write};
use terms::{ItemCollection, StepCollection, TagCollection};

/// Writes a graph as Graphviz text. Each collection is a node, in the order of the numbers: a box `"[c]"` for items, a
/// triangle `"<t>"` for tags, an ellipse `"(s)"` for a step. An arrow leads from what is read to the step, from the step
/// to what it puts, from `env` to what the environment may put, from items that it may get to `env`, and, dashed, from
/// a tag to the step that it prescribes.
pub fn draw_graph<W: Write>(graph: &Graph, out: &mut W) -> Result<()> {
    writeln!(out, "digraph {{")?;
    draw_collections(graph, out)?;
    writeln!(out, "}}")
}

// The collections of a graph with their arrows, without the lines of Graphviz around them.
pub(crate) fn draw_collections<W: Write>(graph: &Graph, out: &mut W) -> Result<()> {
    writeln!(out, "  env [shape=plaintext];")?;
    for number in 0..graph.item_count() {
        draw_items(graph, ItemCollection(number as u16), out)?;
    }
    for number in 0..graph.tag_count() {
        draw_tags(graph, TagCollection(number as u16), out)?;
    }
    for number in 0..graph.step_count() {
        draw_step(graph, StepCollection(number as u16), out)?;
    }
    Ok(())
}

// A collection of items, with arrows for what the environment may do with it.
fn draw_items<W: Write>(graph: &Graph, items: ItemCollection, out: &mut W) -> Result<()> {
    let name = graph.item_name(items).unwrap_or("");
    writeln!(out, "  \"[{name}]\" [shape=box];")?;
    if graph.environment_may_put_item(items) {
        writeln!(out, "  env -> \"[{name}]\";")?;
    }
    if graph.environment_may_get(items) {
        writeln!(out, "  \"[{name}]\" -> env;")?;
    }
    Ok(())
}

// A collection of tags, with an arrow if the environment may put them.
fn draw_tags<W: Write>(graph: &Graph, tags: TagCollection, out: &mut W) -> Result<()> {
    let name = graph.tag_name(tags).unwrap_or("");
    writeln!(out, "  \"<{name}>\" [shape=triangle];")?;
    if graph.environment_may_put_tag(tags) {
        writeln!(out, "  env -> \"<{name}>\";")?;
    }
    Ok(())
}

// A step, with what prescribes it, what it may read, and what it may put.
fn draw_step<W: Write>(graph: &Graph, step: StepCollection, out: &mut W) -> Result<()> {
    let name = graph.step_name(step).unwrap_or("");
    writeln!(out, "  \"({name})\" [shape=ellipse];")?;
    if let Some(tags) = graph.prescriber(step) {
        let tags = graph.tag_name(tags).unwrap_or("");
        writeln!(out, "  \"<{tags}>\" -> \"({name})\" [style=dashed];")?;
    }
    for number in 0..graph.item_count() {
        let items = ItemCollection(number as u16);
        let other = graph.item_name(items).unwrap_or("");
        if graph.may_read(step, items) {
            writeln!(out, "  \"[{other}]\" -> \"({name})\";")?;
        }
        if graph.may_put_item(step, items) {
            writeln!(out, "  \"({name})\" -> \"[{other}]\";")?;
        }
    }
    for number in 0..graph.tag_count() {
        let tags = TagCollection(number as u16);
        let other = graph.tag_name(tags).unwrap_or("");
        if graph.may_put_tag(step, tags) {
            writeln!(out, "  \"({name})\" -> \"<{other}>\";")?;
        }
    }
    Ok(())
}
