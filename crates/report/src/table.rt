//! The items of a store as a table.
ghost use Rattle.std.specs.Prelude.{◌≡◌, map, OnOk};
ghost use Rattle.std.specs.Io.KnownBytes.{Appends};
ghost use Rattle.commit.specs.Core.{graph};
ghost use Rattle.report.specs.ReportText.{AreGot, WritesOf, line};
ghost use Rattle.report.specs.Sinks.{TellsFailure};
ghost use Rattle.report.specs.TableText.{IsTable, components_of, header, most_components};

use crate::components::ColumnNames;
use crate::item_lines::write_collections;
use crate::spelling::Spelling;
use crate::{Sink, SinkFailed};
use commit::Core;
use disk::Disk;
use graph::Graph;
use terms::ItemCollection;

/// Writes the table of a store, of which these are the collections.
pub(crate) fn write_table<D: Disk, S: Sink>(
    core: &Core<D>,
    collections: &[(&str, ItemCollection)],
    out: &mut S,
) -> Result<(), SinkFailed>
    requires { AreGot (graph core.now) (map (λ one. one.1) collections.now) }
    ensures written { OnOk result (WritesOf core.now IsTable (S.contents out.old) (S.contents out.new)) }
    ensures fails { TellsFailure S.target S.has_failed out.old out.new result }
{
    let columns = most_components(core.graph(), collections);
    write_header(columns, out)?;
    write_collections(core, Spelling::Row(columns), collections, out)
}

/// Writes the header of a table with this number of key columns.
fn write_header<S: Sink>(columns: usize, out: &mut S) -> Result<(), SinkFailed>
    ensures written { OnOk result (Appends (S.contents out.old) (S.contents out.new) (line (header columns))) }
    ensures fails { TellsFailure S.target S.has_failed out.old out.new result }
{
    let names = ColumnNames { columns };
    writeln!(out, "collection{names},value")
}

/// The greatest number of components that keys of these collections have; 0 if there is no collection.
fn most_components(graph: &Graph, collections: &[(&str, ItemCollection)]) -> usize
    ensures { result ≡ most_components graph.now (map (λ one. one.1) collections.now) }
{
    let mut most = 0;
    for one in collections {
        most = most.max(components_of(graph, one.1));
    }
    most
}

/// How many components the keys of a collection have; 0 if the graph has no such collection.
fn components_of(graph: &Graph, collection: ItemCollection) -> usize
    ensures { result ≡ components_of graph.now collection }
{
    graph.item_components(collection).unwrap_or(0)
}
