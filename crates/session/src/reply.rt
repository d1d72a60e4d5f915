//! The replies to the lines of a script.
ghost use Rattle.std.specs.Prelude.{Some};
ghost use Rattle.std.specs.Fmt.{WritesOnOk};
ghost use Rattle.session.specs.Replies.{refusal_text, reply_text, waiting_lines, waiting_text};
ghost use Rattle.report.specs.ReportText.{line};

use graph::Graph;
use machine::Refusal;
use report::{NamedAddress, NamedInstance};
use std::fmt;
use terms::{Addr, FaultKind, Inst};

/// The reply to a line of a script.
#[derive(Drop)]
pub(crate) enum Reply {
    /// The put was committed.
    Done,
    /// The item that was got, and its value.
    Value(Addr, i64),
    /// The address that was got, at which no item is.
    Absent(Addr),
    /// Nothing is left to do, and all is done.
    Complete,
    /// Nothing is left to do, and these instances wait, each for the item at the address.
    Blocked(Vec<(Inst, Addr)>),
    /// The store is stopped by this fault of this instance.
    Stopped(Inst, FaultKind),
    /// The run met its limit.
    Limit,
    /// The driver was asked to stop.
    Asked,
    /// The put or the get is refused for this cause.
    Refused(Refusal),
    /// A record does not fit.
    Full,
    /// The store is halted.
    Halted,
    /// The device failed.
    Device,
    /// Memory was refused.
    NoMemory,
    /// A thread could not be started.
    NoThread,
}

/// A reply, and the graph whose names it uses.
#[derive(Clone, Copy)]
pub(crate) struct NamedReply<'a> {
    pub(crate) graph: &'a Graph,
    pub(crate) reply: &'a Reply,
}

impl<'a> fmt::Display for NamedReply<'a> {
    ghost output = { λ named. Some (reply_text named.graph.now named.reply.now) };

    fn fmt<W: fmt::Write>(&self, f: &mut fmt::Formatter<W>) -> fmt::Result {
        let graph = self.graph;
        match self.reply {
            Reply::Done => writeln!(f, "ok"),
            Reply::Value(address, value) => {
                let address = *address;
                let named = NamedAddress { graph, address };
                writeln!(f, "{named} = {value}")
            }
            Reply::Absent(address) => {
                let address = *address;
                let named = NamedAddress { graph, address };
                writeln!(f, "{named} absent")
            }
            Reply::Complete => writeln!(f, "complete"),
            Reply::Blocked(waiting) => {
                let count = waiting.len();
                writeln!(f, "blocked {count}")?;
                write_waiting(f, graph, waiting.as_slice())
            },
            Reply::Stopped(instance, kind) => {
                let instance = *instance;
                let named = NamedInstance { graph, instance };
                let number = kind.number();
                writeln!(f, "stopped by fault {number} at {named}")
            }
            Reply::Limit => writeln!(f, "limit"),
            Reply::Asked => writeln!(f, "asked"),
            Reply::Refused(refusal) => write_refused(f, graph, refusal),
            Reply::Full => writeln!(f, "refused 7: full"),
            Reply::Halted => writeln!(f, "refused 8: halted"),
            Reply::Device => writeln!(f, "refused 9: device"),
            Reply::NoMemory => writeln!(f, "refused 10: no memory"),
            Reply::NoThread => writeln!(f, "refused: no thread"),
        }
    }
}

/// An instance that waits, and the address of the item that it needs.
#[derive(Clone, Copy)]
struct NamedWaiting<'a> {
    graph: &'a Graph,
    entry: &'a (Inst, Addr),
}

impl<'a> fmt::Display for NamedWaiting<'a> {
    ghost output = { λ named. Some (waiting_text named.graph.now named.entry.now) };

    fn fmt<W: fmt::Write>(&self, f: &mut fmt::Formatter<W>) -> fmt::Result {
        let graph = self.graph;
        let instance = self.entry.0;
        let address = self.entry.1;
        let waits = NamedInstance { graph, instance };
        let at = NamedAddress { graph, address };
        write!(f, "{waits} waits at {at}")
    }
}

// Writes a line for each instance that waits.
fn write_waiting<W: fmt::Write>(
    f: &mut fmt::Formatter<W>,
    graph: &Graph,
    waiting: &[(Inst, Addr)],
) -> fmt::Result
    ensures { WritesOnOk W.write_str_gives f.old result (waiting_lines graph.now waiting.now) f.new }
{
    for entry in waiting {
        let named = NamedWaiting { graph, entry };
        writeln!(f, "{named}")?;
    }
    Ok(())
}

// Writes the line of a refusal.
fn write_refused<W: fmt::Write>(
    f: &mut fmt::Formatter<W>,
    graph: &Graph,
    refusal: &Refusal,
) -> fmt::Result
    ensures { WritesOnOk W.write_str_gives f.old result (line (refusal_text graph.now refusal.now)) f.new }
{
    match refusal {
        Refusal::NoSuchCollection => writeln!(f, "refused 1: no such collection"),
        Refusal::NotFromEnvironment => writeln!(f, "refused 2: not from the environment"),
        Refusal::WrongArity => writeln!(f, "refused 3: wrong arity"),
        Refusal::AlreadyPut(value) => writeln!(f, "refused 4: already put as {value}"),
        Refusal::Stopped(instance, kind) => {
            let instance = *instance;
            let named = NamedInstance { graph, instance };
            let number = kind.number();
            writeln!(f, "refused 5: stopped by fault {number} at {named}")
        }
        Refusal::Repeat => writeln!(f, "refused 6: repeat"),
    }
}
