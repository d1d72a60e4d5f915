//! The end of a session.
ghost use Rattle.std.specs.Prelude.{◌≡◌, Err, IfErr, IfOk, None};
ghost use Rattle.session.specs.Fails.{IsOfOutput};
ghost use Rattle.session.specs.Lines.{ClosesWith, ReportFollows, SinkFollows};
ghost use Rattle.session.specs.Streams.{TellsSink};
ghost use Rattle.session.specs.declared.error.SessionError.TheVariants.{NoMemory};

use crate::{Ending, SessionError};
use commit::Core;
use disk::Disk;
use report::{Sink, send_report};
use std::alloc::Global;

/// Ends a session whose lines came to this: writes the report, unless a reply ended it or the sink failed.
pub(crate) fn close<D: Disk, O: Sink>(
    alloc: Global,
    core: &Core<D>,
    went: Result<Ending, SessionError>,
    out: &mut O,
) -> Result<Ending, SessionError>
    ensures answers { ReportFollows D.Disk O.contents out.old out.new core.now went result }
    ensures sink { SinkFollows O.target O.has_failed out.old out.new went result }
{
    match went {
        Ok(ending) => with_report(alloc, core, ending, out),
        Err(error) => Err(error),
    }
}

// Writes the report, unless a reply ended the session.
fn with_report<D: Disk, O: Sink>(
    alloc: Global,
    core: &Core<D>,
    ending: Ending,
    out: &mut O,
) -> Result<Ending, SessionError>
    ensures closed { IfOk result (ClosesWith core.now ending (O.contents out.old) (O.contents out.new)) }
    ensures err { IfErr result IsOfOutput }
    ensures unwritten { result ≡ Err NoMemory → (ending.stop ≡ None) × (O.contents out.new ≡ O.contents out.old) }
    ensures sink { TellsSink O.target O.has_failed out.old out.new result }
{
    if ending.stop.is_some() {
        return Ok(ending);
    }
    match send_report(alloc, core, out) {
        Ok(()) => Ok(ending),
        Err(error) => Err(SessionError::of_report(error)),
    }
}
