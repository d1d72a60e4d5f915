//! Addresses, tags and instances by the names of their collections: `[fib: 0]`, `<n: 2>`, `(add: 2)`.
use crate::telling::tell_key;
use graph::Graph;
use std::alloc::{AllocError, Global};
use terms::{Addr, Inst, ItemCollection, Key, MAX_COMPONENTS, Tag, TagCollection};

/// The address that a text names, if it is written as one. A name that the graph does not have stands for the number
/// after its last.
pub(crate) fn address_of(
    alloc: Global,
    graph: &Graph,
    text: &str,
) -> Result<Option<Addr>, AllocError> {
    let Some(inner) = between(text, '[', ']') else {
        return Ok(None);
    };
    let behind = ItemCollection(graph.item_count() as u16);
    let collection = graph.item_number(name_of(inner)).unwrap_or(behind);
    Ok(key_of(alloc, inner)?.map(|key| Addr { collection, key }))
}

/// The tag that a text names, if it is written as one. A name that the graph does not have stands for the number after
/// its last.
pub(crate) fn tag_of(alloc: Global, graph: &Graph, text: &str) -> Result<Option<Tag>, AllocError> {
    let Some(inner) = between(text, '<', '>') else {
        return Ok(None);
    };
    let behind = TagCollection(graph.tag_count() as u16);
    let collection = graph.tag_number(name_of(inner)).unwrap_or(behind);
    Ok(key_of(alloc, inner)?.map(|key| Tag { collection, key }))
}

/// Writes an instance by the name of its step.
pub(crate) fn tell_named(
    graph: &Graph,
    instance: &Inst,
    out: &mut String,
) -> Result<(), AllocError> {
    let name = graph.step_name(instance.collection).unwrap_or("none");
    write!(out, "({name}")?;
    tell_key(out, &instance.key)?;
    out.push_str(")")
}

/// Writes a tag by the name of its collection.
pub(crate) fn tell_tag(graph: &Graph, tag: &Tag, out: &mut String) -> Result<(), AllocError> {
    let name = graph.tag_name(tag.collection).unwrap_or("none");
    write!(out, "<{name}")?;
    tell_key(out, &tag.key)?;
    out.push_str(">")
}

// What is between two characters at the ends of a text.
fn between(text: &str, open: char, close: char) -> Option<&str> {
    text.strip_prefix(open)?.strip_suffix(close)
}

// The name in `fib: 1, 2`.
fn name_of(text: &str) -> &str {
    let (name, _) = text.split_once(':').unwrap_or((text, ""));
    name
}

// The components after the name, if they are numbers, and not too many.
fn key_of(alloc: Global, text: &str) -> Result<Option<Key>, AllocError> {
    let (_, words) = text.split_once(':').unwrap_or((text, ""));
    let mut components = Vec::new(alloc);
    let are_numbers = push_components(words, &mut components)?;
    if !are_numbers || components.len() > MAX_COMPONENTS {
        return Ok(None);
    }
    Ok(Some(Key::new(components.as_slice())))
}

// Appends the components in a text, and returns whether each of them is a number.
fn push_components(words: &str, components: &mut Vec<i64>) -> Result<bool, AllocError> {
    for word in words.split(',').filter(|word| !word.is_empty()) {
        match word.trim().parse::<i64>() {
            Ok(component) => components.push(component)?,
            Err(_) => return Ok(false),
        }
    }
    Ok(true)
}
