//! The lines of items.
ghost use Rattle.std.specs.Prelude.{OnOk};
ghost use Rattle.std.specs.Io.KnownBytes.{Appends};
ghost use Rattle.commit.specs.Core.{graph};
ghost use Rattle.report.specs.Formats.{spelled, AppendsCollections};
ghost use Rattle.report.specs.Named.{item_text};
ghost use Rattle.report.specs.ObjectLines.{item_object};
ghost use Rattle.report.specs.ReportText.{item_lines, line};
ghost use Rattle.report.specs.Sinks.{TellsFailure};
ghost use Rattle.report.specs.TableText.{row_text};

use crate::components::{BetweenCommas, KeyCells};
use crate::named::name_of;
use crate::spelling::Spelling;
use crate::{NamedAddress, Sink, SinkFailed};
use commit::Core;
use disk::Disk;
use graph::Graph;
use machine::ItemsOf;
use terms::{Addr, ItemCollection};

/// Writes the lines of the items of these collections, one collection after another.
pub(crate) fn write_collections<D: Disk, S: Sink>(
    core: &Core<D>,
    spelling: Spelling,
    collections: &[(&str, ItemCollection)],
    out: &mut S,
) -> Result<(), SinkFailed>
    ensures written { OnOk result (AppendsCollections core.now spelling collections.now (S.contents out.old) (S.contents out.new)) }
    ensures fails { TellsFailure S.target S.has_failed out.old out.new result }
{
    for one in collections {
        write_items(core.graph(), spelling, core.items_of(one.1), out)?;
    }
    Ok(())
}

/// Writes a line for each of these items.
fn write_items<S: Sink>(
    graph: &Graph,
    spelling: Spelling,
    items: ItemsOf<'_>,
    out: &mut S,
) -> Result<(), SinkFailed>
    ensures written { OnOk result (Appends (S.contents out.old) (S.contents out.new) (item_lines (spelled spelling graph.now) items.entry)) }
    ensures fails { TellsFailure S.target S.has_failed out.old out.new result }
{
    for (address, value) in items {
        write_item(graph, spelling, address, value, out)?;
    }
    Ok(())
}

/// Writes the line of an item.
fn write_item<S: Sink>(
    graph: &Graph,
    spelling: Spelling,
    address: Addr,
    value: i64,
    out: &mut S,
) -> Result<(), SinkFailed>
    ensures written { OnOk result (Appends (S.contents out.old) (S.contents out.new) (line (spelled spelling graph.now address value))) }
    ensures fails { TellsFailure S.target S.has_failed out.old out.new result }
{
    match spelling {
        Spelling::Plain => write_plain(graph, address, value, out),
        Spelling::Row(columns) => write_row(graph, columns, address, value, out),
        Spelling::Object => write_object(graph, address, value, out),
    }
}

/// Writes an item as `[c: k, ..] = v`.
fn write_plain<S: Sink>(
    graph: &Graph,
    address: Addr,
    value: i64,
    out: &mut S,
) -> Result<(), SinkFailed>
    ensures written { OnOk result (Appends (S.contents out.old) (S.contents out.new) (line (item_text graph.now address value))) }
    ensures fails { TellsFailure S.target S.has_failed out.old out.new result }
{
    let named = NamedAddress { graph, address };
    writeln!(out, "{named} = {value}")
}

/// Writes an item as a row of a table with this number of key columns.
fn write_row<S: Sink>(
    graph: &Graph,
    columns: usize,
    address: Addr,
    value: i64,
    out: &mut S,
) -> Result<(), SinkFailed>
    ensures written { OnOk result (Appends (S.contents out.old) (S.contents out.new) (line (row_text graph.now columns address value))) }
    ensures fails { TellsFailure S.target S.has_failed out.old out.new result }
{
    let name = name_of(graph, address.collection);
    let key = &address.key;
    let cells = KeyCells { columns, key };
    writeln!(out, "{name}{cells},{value}")
}

/// Writes an item as a JSON object.
fn write_object<S: Sink>(
    graph: &Graph,
    address: Addr,
    value: i64,
    out: &mut S,
) -> Result<(), SinkFailed>
    ensures written { OnOk result (Appends (S.contents out.old) (S.contents out.new) (line (item_object graph.now address value))) }
    ensures fails { TellsFailure S.target S.has_failed out.old out.new result }
{
    let name = name_of(graph, address.collection);
    let key = &address.key;
    let components = BetweenCommas { key };
    writeln!(
        out,
        "{{\"collection\":\"{name}\",\"key\":[{components}],\"value\":{value}}}"
    )
}
