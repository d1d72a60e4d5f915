//! The lines of a log.
ghost use Rattle.std.specs.Prelude.{OnOk};
ghost use Rattle.std.specs.Io.KnownBytes.{Appends};
ghost use Rattle.report.specs.ReportText.{line, stopped_text};
ghost use Rattle.cli.specs.LogText.{commit_lines, event_lines, group_lines, own_put_line, put_line};
ghost use Rattle.terms.specs.declared.event.Event.TheVariants.{Done};
ghost use Rattle.terms.specs.declared.put.Put.TheVariants.{Item, Tag as Label};

use graph::Graph;
use report::{NamedAddress, NamedInstance, NamedTag};
use std::io::{self, Write};
use terms::{Addr, Event, FaultKind, Inst, Put, Tag};

/// Writes the lines of the commit of this number. A commit of several events is a group: its events are numbered, from 1.
pub(crate) fn write_commit<W: Write>(
    graph: &Graph,
    number: u64,
    commit: &[Event],
    out: &mut W,
) -> io::Result<()>
    ensures { OnOk result (Appends (W.contents out.old) (W.contents out.new) (commit_lines graph.now number commit.now)) }
{
    if commit.len() == 1 {
        write!(out, "{number} ")?;
        write_event(graph, &commit[0], out)
    } else {
        write_group(graph, number, commit, out)
    }
}

// Writes the lines of a group.
fn write_group<W: Write>(
    graph: &Graph,
    number: u64,
    events: &[Event],
    out: &mut W,
) -> io::Result<()>
    ensures { OnOk result (Appends (W.contents out.old) (W.contents out.new) (group_lines graph.now number 1 events.now)) }
{
    for (index, event) in events.iter().enumerate() {
        let part = index + 1;
        write!(out, "{number}.{part} ")?;
        write_event(graph, event, out)?;
    }
    Ok(())
}

// Writes the lines of an event.
fn write_event<W: Write>(graph: &Graph, event: &Event, out: &mut W) -> io::Result<()>
    ensures { OnOk result (Appends (W.contents out.old) (W.contents out.new) (event_lines graph.now event.now)) }
{
    match event {
        Event::EnvItem(address, value) => write_item(graph, *address, *value, out),
        Event::EnvTag(tag) => write_tag(graph, *tag, out),
        Event::Done(instance, puts) => write_end(graph, *instance, puts.as_slice(), out),
        Event::Stopped(instance, kind) => write_stop(graph, *instance, *kind, out),
    }
}

// Writes the end of an instance, and below it what the instance put.
fn write_end<W: Write>(graph: &Graph, instance: Inst, puts: &[Put], out: &mut W) -> io::Result<()>
    ensures { OnOk result (Appends (W.contents out.old) (W.contents out.new) (event_lines graph.now (Done instance puts.now))) }
{
    let named = NamedInstance { graph, instance };
    writeln!(out, "done {named}")?;
    for put in puts {
        write_put(graph, put, out)?;
    }
    Ok(())
}

// Writes a put of an instance.
fn write_put<W: Write>(graph: &Graph, put: &Put, out: &mut W) -> io::Result<()>
    ensures { OnOk result (Appends (W.contents out.old) (W.contents out.new) (own_put_line graph.now put.now)) }
{
    write!(out, "    ")?;
    match put {
        Put::Item(address, value) => write_item(graph, *address, *value, out),
        Put::Tag(tag) => write_tag(graph, *tag, out),
    }
}

// Writes the put of an item.
fn write_item<W: Write>(graph: &Graph, address: Addr, value: i64, out: &mut W) -> io::Result<()>
    ensures { OnOk result (Appends (W.contents out.old) (W.contents out.new) (put_line graph.now (Item address value))) }
{
    let named = NamedAddress { graph, address };
    writeln!(out, "put {named} = {value}")
}

// Writes the put of a tag.
fn write_tag<W: Write>(graph: &Graph, tag: Tag, out: &mut W) -> io::Result<()>
    ensures { OnOk result (Appends (W.contents out.old) (W.contents out.new) (put_line graph.now (Label tag))) }
{
    let named = NamedTag { graph, tag };
    writeln!(out, "tag {named}")
}

// Writes the stop of an instance, as a report does.
fn write_stop<W: Write>(
    graph: &Graph,
    instance: Inst,
    kind: FaultKind,
    out: &mut W,
) -> io::Result<()>
    ensures { OnOk result (Appends (W.contents out.old) (W.contents out.new) (line (stopped_text graph.now instance kind))) }
{
    let named = NamedInstance { graph, instance };
    let number = kind.number();
    writeln!(out, "stopped by fault {number} at {named}")
}
