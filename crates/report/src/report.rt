//! The report of a store.
ghost use Rattle.std.specs.Prelude.{◌≡◌, map, OnOk};
ghost use Rattle.std.specs.Io.KnownBytes.{Appends};
ghost use Rattle.commit.specs.Core.{graph};
ghost use Rattle.report.specs.Formats.{IsReportIn};
ghost use Rattle.report.specs.ReportText.{AreGot, IsReport, WritesOf, counts_text, fault_line, line, stopped_text};
ghost use Rattle.report.specs.Sinks.{TellsFailure, TellsReport};
ghost use Rattle.report.specs.declared.error.ReportError.TheVariants.{NoMemory};

use crate::got::got_by_name;
use crate::item_lines::write_collections;
use crate::objects::write_objects;
use crate::spelling::Spelling;
use crate::table::write_table;
use crate::{Format, NamedInstance, ReportError, Sink, SinkFailed, WriterSink};
use commit::Core;
use disk::Disk;
use graph::Graph;
use machine::Counts;
use std::alloc::Global;
use std::io::Write;
use terms::{FaultKind, Inst, ItemCollection};

/// Writes the line of the counts.
fn write_counts<S: Sink>(counts: Counts, out: &mut S) -> Result<(), SinkFailed>
    ensures written { OnOk result (Appends (S.contents out.old) (S.contents out.new) (line (counts_text counts))) }
    ensures fails { TellsFailure S.target S.has_failed out.old out.new result }
{
    let Counts {
        items,
        tags,
        prescribed,
        done,
    } = counts;
    writeln!(
        out,
        "{items} items, {tags} tags, {done} of {prescribed} steps done"
    )?;
    Ok(())
}

/// Writes the line of a fault, if there is one.
fn write_fault<S: Sink>(
    graph: &Graph,
    fault: Option<(Inst, FaultKind)>,
    out: &mut S,
) -> Result<(), SinkFailed>
    ensures written { OnOk result (Appends (S.contents out.old) (S.contents out.new) (fault_line (stopped_text graph.now) fault)) }
    ensures fails { TellsFailure S.target S.has_failed out.old out.new result }
{
    if let Some((instance, kind)) = fault {
        let named = NamedInstance { graph, instance };
        let number = kind.number();
        writeln!(out, "stopped by fault {number} at {named}")?;
    }
    Ok(())
}

/// Writes the lines of a report, of which these are the collections.
fn write_lines<D: Disk, S: Sink>(
    core: &Core<D>,
    collections: &[(&str, ItemCollection)],
    out: &mut S,
) -> Result<(), SinkFailed>
    requires { AreGot (graph core.now) (map (λ one. one.1) collections.now) }
    ensures written { OnOk result (WritesOf core.now IsReport (S.contents out.old) (S.contents out.new)) }
    ensures fails { TellsFailure S.target S.has_failed out.old out.new result }
{
    write_collections(core, Spelling::Plain, collections, out)?;
    write_counts(core.counts(), out)?;
    let fault = core.fault();
    write_fault(core.graph(), fault, out)
}

/// Writes the report in a format, of which these are the collections.
fn write_in<D: Disk, S: Sink>(
    core: &Core<D>,
    format: Format,
    collections: &[(&str, ItemCollection)],
    out: &mut S,
) -> Result<(), SinkFailed>
    requires { AreGot (graph core.now) (map (λ one. one.1) collections.now) }
    ensures written { OnOk result (WritesOf core.now (IsReportIn format) (S.contents out.old) (S.contents out.new)) }
    ensures fails { TellsFailure S.target S.has_failed out.old out.new result }
{
    match format {
        Format::Text => write_lines(core, collections, out),
        Format::Csv => write_table(core, collections, out),
        Format::Json => write_objects(core, collections, out),
    }
}

/// Writes the report of a store: a line for each item that the environment may get, sorted by the name of its
/// collection and then by key; one with the numbers of items, tags and steps; and one for the fault, if there is one.
/// Each line ends with a line feed.
///
/// # Errors
///
/// - `Write`: the sink returned an error.
/// - `NoMemory`: memory was refused. Nothing was written.
pub fn send_report<D: Disk, S: Sink>(
    alloc: Global,
    core: &Core<D>,
    out: &mut S,
) -> Result<(), ReportError>
    ensures written { OnOk result (WritesOf core.now IsReport (S.contents out.old) (S.contents out.new)) }
    ensures fails { TellsReport S.target S.has_failed out.old out.new result }
    ensures unwritten { result ≡ Err NoMemory → S.contents out.new ≡ S.contents out.old }
{
    send_report_in(alloc, core, Format::Text, out)
}

/// Writes the report of a store in a format. A table has a header, and a row for each item that the environment may
/// get, in the order of `send_report`; no counts, and no fault. JSON has an object for each line of `send_report`.
///
/// # Errors
///
/// - `Write`: the sink returned an error.
/// - `NoMemory`: memory was refused. Nothing was written.
pub fn send_report_in<D: Disk, S: Sink>(
    alloc: Global,
    core: &Core<D>,
    format: Format,
    out: &mut S,
) -> Result<(), ReportError>
    ensures written { OnOk result (WritesOf core.now (IsReportIn format) (S.contents out.old) (S.contents out.new)) }
    ensures fails { TellsReport S.target S.has_failed out.old out.new result }
    ensures unwritten { result ≡ Err NoMemory → S.contents out.new ≡ S.contents out.old }
{
    match got_by_name(alloc, core.graph()) {
        Ok(collections) => match write_in(core, format, &collections, out) {
            Ok(()) => Ok(()),
            Err(_) => Err(ReportError::Write),
        },
        Err(_) => Err(ReportError::NoMemory),
    }
}

/// The same as `send_report`, to a writer. After an error it is not known how much was written.
pub fn write_report<D: Disk, W: Write>(
    alloc: Global,
    core: &Core<D>,
    out: &mut W,
) -> Result<(), ReportError>
    ensures { OnOk result (WritesOf core.now IsReport (W.contents out.old) (W.contents out.new)) }
{
    write_report_in(alloc, core, Format::Text, out)
}

/// The same as `send_report_in`, to a writer. After an error it is not known how much was written.
pub fn write_report_in<D: Disk, W: Write>(
    alloc: Global,
    core: &Core<D>,
    format: Format,
    out: &mut W,
) -> Result<(), ReportError>
    ensures { OnOk result (WritesOf core.now (IsReportIn format) (W.contents out.old) (W.contents out.new)) }
{
    let mut sink = WriterSink { out, failed: false };
    let sent = send_report_in(alloc, core, format, &mut sink);
    let WriterSink { out, failed: _ } = sink;
    // A proof reads from this use what the writer holds.
    let _ = &*out;
    sent
}
