//! Names, events and images in words, with their collections by number. Of a list of more than eight elements only the
//! length and the last element are written.
use codec::Image;
use std::alloc::AllocError;
use terms::{Addr, Event, Inst, Key, Producer, Put, Tag};

// The greatest number of elements that are written one by one.
const MOST_TOLD: usize = 8;

/// What is written of a list: all of it, or only its last element if it is too long.
pub(crate) fn told_of<T>(list: &[T]) -> &[T] {
    if list.len() > MOST_TOLD {
        &list[list.len() - 1..]
    } else {
        list
    }
}

/// Writes the components of a key: the first after a colon, each other after a comma.
pub(crate) fn tell_key(out: &mut String, key: &Key) -> Result<(), AllocError> {
    for (place, component) in key.components().iter().enumerate() {
        out.push_str(if place == 0 { ": " } else { ", " })?;
        write!(out, "{component}")?;
    }
    Ok(())
}

fn tell_address(out: &mut String, address: &Addr) -> Result<(), AllocError> {
    write!(out, "[{}", address.collection.0)?;
    tell_key(out, &address.key)?;
    out.push_str("]")
}

fn tell_tag(out: &mut String, tag: &Tag) -> Result<(), AllocError> {
    write!(out, "<{}", tag.collection.0)?;
    tell_key(out, &tag.key)?;
    out.push_str(">")
}

/// An instance.
pub(crate) fn tell_instance(out: &mut String, instance: &Inst) -> Result<(), AllocError> {
    write!(out, "({}", instance.collection.0)?;
    tell_key(out, &instance.key)?;
    out.push_str(")")
}

fn tell_put(out: &mut String, put: &Put) -> Result<(), AllocError> {
    match put {
        Put::Item(address, value) => {
            tell_address(out, address)?;
            write!(out, " = {value}")
        }
        Put::Tag(tag) => tell_tag(out, tag),
    }
}

/// An event.
pub(crate) fn tell_event(out: &mut String, event: &Event) -> Result<(), AllocError> {
    match event {
        Event::EnvItem(address, value) => {
            out.push_str("env puts ")?;
            tell_put(out, &Put::Item(*address, *value))
        }
        Event::EnvTag(tag) => {
            out.push_str("env puts ")?;
            tell_tag(out, tag)
        }
        Event::Done(instance, puts) => {
            tell_instance(out, instance)?;
            out.push_str(" puts")?;
            tell_puts(out, puts.as_slice())
        }
        Event::Stopped(instance, kind) => {
            write!(out, "fault {} at ", kind.number())?;
            tell_instance(out, instance)
        }
    }
}

/// The events of a commit.
pub(crate) fn tell_events(out: &mut String, events: &[Event]) -> Result<(), AllocError> {
    let told = told_of(events);
    if told.len() < events.len() {
        write!(out, "{} events, the last ", events.len())?;
    }
    for (place, event) in told.iter().enumerate() {
        if place > 0 {
            out.push_str("; ")?;
        }
        tell_event(out, event)?;
    }
    Ok(())
}

fn tell_puts(out: &mut String, puts: &[Put]) -> Result<(), AllocError> {
    let told = told_of(puts);
    if told.len() < puts.len() {
        write!(out, " {}, the last", puts.len())?;
    }
    for put in told {
        out.push_str(" ")?;
        tell_put(out, put)?;
    }
    Ok(())
}

/// An item, and who put it.
pub(crate) fn tell_item(out: &mut String, item: &(Addr, i64, Producer)) -> Result<(), AllocError> {
    tell_put(out, &Put::Item(item.0, item.1))?;
    match item.2 {
        Producer::Env => out.push_str(" by env"),
        Producer::By(instance, number) => {
            out.push_str(" by ")?;
            tell_instance(out, &instance)?;
            write!(out, " {number}")
        }
    }
}

/// Writes a comma before an element of a list, unless it is the first.
pub(crate) fn part(out: &mut String) -> Result<(), AllocError> {
    if !out.is_empty() {
        out.push_str(", ")?;
    }
    Ok(())
}

fn tell_items(out: &mut String, items: &[(Addr, i64, Producer)]) -> Result<(), AllocError> {
    let told = told_of(items);
    if told.len() < items.len() {
        part(out)?;
        write!(out, "{} items, the last", items.len())?;
    }
    for item in told {
        part(out)?;
        tell_item(out, item)?;
    }
    Ok(())
}

fn tell_tags(out: &mut String, tags: &[(Tag, bool)]) -> Result<(), AllocError> {
    let told = told_of(tags);
    if told.len() < tags.len() {
        part(out)?;
        write!(out, "{} tags, the last", tags.len())?;
    }
    for (tag, is_of_environment) in told {
        part(out)?;
        tell_tag(out, tag)?;
        out.push_str(if *is_of_environment { " by env" } else { "" })?;
    }
    Ok(())
}

fn tell_done(out: &mut String, done: &[Inst]) -> Result<(), AllocError> {
    let told = told_of(done);
    if told.len() < done.len() {
        part(out)?;
        write!(out, "{} done, the last", done.len())?;
    }
    for instance in told {
        part(out)?;
        tell_instance(out, instance)?;
    }
    Ok(())
}

/// An image: its fault, its items, its tags, its done instances. `out` is empty.
pub(crate) fn tell_image(out: &mut String, image: &Image) -> Result<(), AllocError> {
    if let Some((instance, kind)) = &image.fault {
        write!(out, "fault {} at ", kind.number())?;
        tell_instance(out, instance)?;
    }
    tell_items(out, image.items.as_slice())?;
    tell_tags(out, image.tags.as_slice())?;
    tell_done(out, image.done.as_slice())?;
    if out.is_empty() {
        out.push_str("nothing")?;
    }
    Ok(())
}
