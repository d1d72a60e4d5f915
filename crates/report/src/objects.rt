//! The report of a store as JSON.
ghost use Rattle.std.specs.Prelude.{map, OnOk};
ghost use Rattle.std.specs.Io.KnownBytes.{Appends};
ghost use Rattle.commit.specs.Core.{graph};
ghost use Rattle.report.specs.ObjectLines.{AreObjects, counts_object, fault_object};
ghost use Rattle.report.specs.ReportText.{AreGot, WritesOf, fault_line, line};
ghost use Rattle.report.specs.Sinks.{TellsFailure};

use crate::components::BetweenCommas;
use crate::item_lines::write_collections;
use crate::named::step_name_of;
use crate::spelling::Spelling;
use crate::{Sink, SinkFailed};
use commit::Core;
use disk::Disk;
use graph::Graph;
use machine::Counts;
use terms::{FaultKind, Inst, ItemCollection};

/// Writes the objects of a report, of which these are the collections.
pub(crate) fn write_objects<D: Disk, S: Sink>(
    core: &Core<D>,
    collections: &[(&str, ItemCollection)],
    out: &mut S,
) -> Result<(), SinkFailed>
    requires { AreGot (graph core.now) (map (λ one. one.1) collections.now) }
    ensures written { OnOk result (WritesOf core.now AreObjects (S.contents out.old) (S.contents out.new)) }
    ensures fails { TellsFailure S.target S.has_failed out.old out.new result }
{
    write_collections(core, Spelling::Object, collections, out)?;
    write_counts_object(core.counts(), out)?;
    let fault = core.fault();
    write_fault_object(core.graph(), fault, out)
}

/// Writes the counts as a JSON object.
fn write_counts_object<S: Sink>(counts: Counts, out: &mut S) -> Result<(), SinkFailed>
    ensures written { OnOk result (Appends (S.contents out.old) (S.contents out.new) (line (counts_object counts))) }
    ensures fails { TellsFailure S.target S.has_failed out.old out.new result }
{
    let Counts {
        items,
        tags,
        prescribed,
        done,
    } = counts;
    writeln!(
        out,
        "{{\"items\":{items},\"tags\":{tags},\"done\":{done},\"steps\":{prescribed}}}"
    )
}

/// Writes a fault as a JSON object, if there is one.
fn write_fault_object<S: Sink>(
    graph: &Graph,
    fault: Option<(Inst, FaultKind)>,
    out: &mut S,
) -> Result<(), SinkFailed>
    ensures written { OnOk result (Appends (S.contents out.old) (S.contents out.new) (fault_line (fault_object graph.now) fault)) }
    ensures fails { TellsFailure S.target S.has_failed out.old out.new result }
{
    if let Some((instance, kind)) = fault {
        let name = step_name_of(graph, instance.collection);
        let number = kind.number();
        let key = &instance.key;
        let components = BetweenCommas { key };
        writeln!(
            out,
            "{{\"fault\":{number},\"step\":\"{name}\",\"key\":[{components}]}}"
        )?;
    }
    Ok(())
}
