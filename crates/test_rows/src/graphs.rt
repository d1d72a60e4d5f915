//! Graph texts.
//!
//! - `tokens`: its tokens, each after its place
//! - `parse`: its fault, or the canonical text of its graph after the number of bytes of that text
//! - `reads`: its fault, or that it is a graph
//! - `graph`: what its graph says of its collections, and of one more of each kind
//! - `beginnings`: the lengths of those prefixes of it that are graphs
//! - `refuses BYTES`: at how many places one of these characters can replace the one that the text has there
use graph::{Graph, canonical, parse};
use std::alloc::{AllocError, Global};
use syntax::tokens;
use terms::{Addr, Inst, ItemCollection, Key, MAX_COMPONENTS, StepCollection, Tag, TagCollection};
use test_cases::Names;

/// The result of a command on this text.
pub(crate) fn answer(
    alloc: Global,
    names: &Names,
    command: &str,
    more: &str,
    text: &str,
) -> Result<String, AllocError> {
    let mut out = String::new(alloc);
    tell(alloc, names, command, more, text, &mut out)?;
    Ok(out)
}

fn tell(
    alloc: Global,
    names: &Names,
    command: &str,
    more: &str,
    text: &str,
    out: &mut String,
) -> Result<(), AllocError> {
    match command {
        "tokens" => tell_tokens(alloc, text, out),
        "parse" => tell_canonical(alloc, text.as_bytes(), out),
        "reads" => {
            tell_fault(alloc, text.as_bytes(), out)?;
            out.push_str("\n")
        }
        "graph" => tell_graph(alloc, text.as_bytes(), out),
        "beginnings" => tell_beginnings(alloc, text.as_bytes(), out),
        _ => match names.bytes(more) {
            Some(bytes) => tell_changes(alloc, text.as_bytes(), bytes, out),
            None => out.push_str("no such name\n"),
        },
    }
}

#[tactic(auto, using(crate::proofs::Ascii::ascii_text))]
fn tell_tokens(alloc: Global, text: &str, out: &mut String) -> Result<(), AllocError> {
    if !text.is_ascii() {
        return out.push_str("not ASCII\n");
    }
    for placed in &tokens(alloc, text)? {
        let place = placed.place;
        let token = placed.token;
        writeln!(out, "{place} {token:?}")?;
    }
    Ok(())
}

// Writes the fault of a text, or that it is a graph.
fn tell_fault(alloc: Global, text: &[u8], out: &mut String) -> Result<(), AllocError> {
    match parse(alloc, text) {
        Ok(_) => out.push_str("a graph"),
        Err(fault) => write!(out, "{fault}"),
    }
}

// The canonical text of the graph that a text reads as, if it reads as one.
fn canonical_of(alloc: Global, text: &[u8]) -> Result<Option<Vec<u8>>, AllocError> {
    match parse(alloc, text) {
        Ok(graph) => Ok(Some(canonical(alloc, &graph)?)),
        Err(_) => Ok(None),
    }
}

fn tell_canonical(alloc: Global, text: &[u8], out: &mut String) -> Result<(), AllocError> {
    match parse(alloc, text) {
        Ok(graph) => tell_text(&canonical(alloc, &graph)?, out),
        Err(fault) => writeln!(out, "{fault}"),
    }
}

fn tell_text(text: &[u8], out: &mut String) -> Result<(), AllocError> {
    writeln!(out, "{} bytes", text.len())?;
    out.push_str(str::from_utf8(text).unwrap_or("not ASCII\n"))
}

// Whether a text is a graph, and its canonical text has itself as canonical text.
fn is_graph(alloc: Global, text: &[u8]) -> Result<bool, AllocError> {
    let Some(once) = canonical_of(alloc, text)? else {
        return Ok(false);
    };
    Ok(canonical_of(alloc, &once)?.as_ref() == Some(&once))
}

fn tell_beginnings(alloc: Global, text: &[u8], out: &mut String) -> Result<(), AllocError> {
    for length in 0..=text.len() {
        if is_graph(alloc, &text[..length])? {
            write!(out, "{length} ")?;
        }
    }
    out.push_str("\n")
}

fn tell_changes(
    alloc: Global,
    text: &[u8],
    bytes: &[u8],
    out: &mut String,
) -> Result<(), AllocError> {
    let mut changed = text.to_vec(alloc)?;
    let taken = taken_of(alloc, &mut changed, bytes)?;
    writeln!(out, "{taken} taken")
}

// At how many places one of these bytes can replace the one that is there.
fn taken_of(alloc: Global, text: &mut [u8], bytes: &[u8]) -> Result<u64, AllocError> {
    let mut taken = 0u64;
    for place in 0..text.len() {
        for byte in bytes {
            let old = text[place];
            text[place] = *byte;
            if is_graph(alloc, text)? {
                taken = taken.saturating_add(1);
            }
            text[place] = old;
        }
    }
    Ok(taken)
}

fn tell_graph(alloc: Global, text: &[u8], out: &mut String) -> Result<(), AllocError> {
    match parse(alloc, text) {
        Ok(graph) => {
            tell_items(&graph, out)?;
            tell_tags(&graph, out)?;
            tell_steps(&graph, out)
        }
        Err(fault) => writeln!(out, "{fault}"),
    }
}

fn tell_items(graph: &Graph, out: &mut String) -> Result<(), AllocError> {
    let count = graph.item_count() as u16;
    writeln!(out, "{count} items")?;
    for number in 0..count.saturating_add(1) {
        let item = ItemCollection(number);
        let name = graph.item_name(item).unwrap_or("none");
        let address = Addr {
            collection: item,
            key: key_of(graph.item_components(item)),
        };
        let components = components_of(graph, &address);
        let found = graph.item_number(name);
        let puts = graph.environment_puts_item(&address);
        let gets = graph.environment_gets(&address);
        writeln!(
            out,
            "[{name}] {components:?} {found:?} put {puts} get {gets}"
        )?;
    }
    Ok(())
}

fn tell_tags(graph: &Graph, out: &mut String) -> Result<(), AllocError> {
    let count = graph.tag_count() as u16;
    writeln!(out, "{count} tags")?;
    for number in 0..count.saturating_add(1) {
        let tag = TagCollection(number);
        let name = graph.tag_name(tag).unwrap_or("none");
        let components = graph.tag_components(tag);
        let found = graph.tag_number(name);
        let puts = graph.environment_puts_tag(&Tag {
            collection: tag,
            key: key_of(components),
        });
        let steps = graph.prescribed_by(tag);
        writeln!(
            out,
            "<{name}> {components:?} {found:?} put {puts} {steps:?}"
        )?;
    }
    Ok(())
}

fn tell_steps(graph: &Graph, out: &mut String) -> Result<(), AllocError> {
    let count = graph.step_count() as u16;
    writeln!(out, "{count} steps")?;
    for number in 0..count.saturating_add(1) {
        tell_step(graph, StepCollection(number), out)?;
    }
    Ok(())
}

fn tell_step(graph: &Graph, step: StepCollection, out: &mut String) -> Result<(), AllocError> {
    let name = graph.step_name(step).unwrap_or("none");
    let parameters = parameters_of(graph, step);
    let found = graph.step_number(name);
    let prescriber = graph.prescriber(step);
    let names = graph.body(step).map(|checked| checked.names.len());
    write!(
        out,
        "({name}) {parameters:?} {found:?} {prescriber:?} {names:?}"
    )?;
    out.push_str(" reads ")?;
    for item in 0..graph.item_count() as u16 {
        push_mark(out, graph.may_read(step, ItemCollection(item)))?;
    }
    out.push_str(" puts ")?;
    for item in 0..graph.item_count() as u16 {
        push_mark(out, graph.may_put_item(step, ItemCollection(item)))?;
    }
    out.push_str(" ")?;
    for tag in 0..graph.tag_count() as u16 {
        push_mark(out, graph.may_put_tag(step, TagCollection(tag)))?;
    }
    out.push_str("\n")
}

fn push_mark(out: &mut String, is_marked: bool) -> Result<(), AllocError> {
    out.push(if is_marked { '1' } else { '0' })?;
    Ok(())
}

// How many components the keys of an address's collection have, if the address is of the graph.
fn components_of(graph: &Graph, address: &Addr) -> Option<usize> {
    if graph.is_address(address) {
        graph.item_components(address.collection)
    } else {
        None
    }
}

// How many parameters a step has, if an instance with this number of components is of the graph.
fn parameters_of(graph: &Graph, step: StepCollection) -> Option<usize> {
    let parameters = graph.step_parameters(step);
    let instance = Inst {
        collection: step,
        key: key_of(parameters),
    };
    if graph.is_instance(&instance) {
        parameters
    } else {
        None
    }
}

// A key with this number of components, all of them 0.
fn key_of(components: Option<usize>) -> Key {
    let zeros = [0; MAX_COMPONENTS];
    Key::new(&zeros[..components.unwrap_or(0).min(MAX_COMPONENTS)])
}
