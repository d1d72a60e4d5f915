//! What a command comes to.
ghost use Rattle.std.specs.Prelude.{◌≡◌};
ghost use Rattle.cli.specs.Outcomes.{failure_of_creation, failure_of_report, failure_of_session, failure_of_turn, failure_status, report_status, run_status, status_of, store_status};
ghost use Rattle.std.specs.Prelude.{Some};
ghost use Rattle.std.specs.Fmt.{WritesOnOk};
ghost use Rattle.cli.specs.Outcomes.{failure_text, store_text, side_text};

use commit::{CoreError, CreateError};
use disk::Side;
use graph::{GraphError, GraphFault};
use report::ReportError;
use script::ScriptFault;
use session::{Ending, SessionError};
use std::fmt;
use vault::VaultError;

/// The state in which a run or a report leaves the store.
#[derive(Clone, Copy, Debug, PartialEq, Eq)]
pub struct Left {
    /// Whether a fault stopped the store.
    pub is_stopped: bool,
    /// Whether a prescribed instance is not done.
    pub is_unfinished: bool,
}

/// What a command came to.
#[derive(Clone, Copy, Debug, PartialEq, Eq)]
pub enum Outcome {
    /// A store was made.
    Created,
    /// A script was run, and this is how its session ended and what it left.
    Ran(Ending, Left),
    /// The report was written.
    Reported(Left),
    /// The log was written.
    Logged,
    /// The store was turned over, and has this generation.
    Turned(u64),
    /// The graph was drawn.
    Drawn,
    /// What the store holds is what its steps can have come to.
    Verified,
    /// What the store holds is not what its steps can have come to.
    NotVerified,
    /// The command failed.
    Failed(Failure),
}

/// Why a command failed.
#[derive(Clone, Copy, Debug, PartialEq, Eq)]
pub enum Failure {
    /// The text is not a graph.
    Graph(GraphFault),
    /// The line of the script with this number, counted from 1, is the first at fault.
    Script(usize, ScriptFault),
    /// The graph or the script could not be read.
    CannotRead,
    /// The store was not made, opened or turned over.
    Store(VaultError),
    /// Memory was refused.
    NoMemory,
    /// The output could not be written.
    Output,
}

impl Outcome {
    /// The status with which the program ends.
    pub fn status(&self) -> u8
        ensures { result ≡ status_of self.now }
    {
        match self {
            Outcome::Created
            | Outcome::Logged
            | Outcome::Turned(_)
            | Outcome::Drawn
            | Outcome::Verified => 0,
            Outcome::NotVerified => 4,
            Outcome::Ran(ending, left) => run_status(ending, left),
            Outcome::Reported(left) => report_status(left),
            Outcome::Failed(failure) => failure.status(),
        }
    }
}

// The status of a session that came to its end, or to a reply that ended it.
fn run_status(ending: &Ending, left: &Left) -> u8
    ensures { result ≡ run_status ending.now left.now }
{
    if ending.stop.is_some() {
        5
    } else if ending.is_full {
        4
    } else if left.is_stopped {
        3
    } else if ending.is_limited {
        6
    } else if left.is_unfinished {
        1
    } else {
        0
    }
}

// The status of a report.
fn report_status(left: &Left) -> u8
    ensures { result ≡ report_status left.now }
{
    if left.is_stopped {
        3
    } else if left.is_unfinished {
        1
    } else {
        0
    }
}

impl Failure {
    // The status of a failure.
    fn status(&self) -> u8
        ensures { result ≡ failure_status self.now }
    {
        match self {
            Failure::Graph(_) | Failure::Script(..) | Failure::CannotRead => 2,
            Failure::Store(error) => store_status(error),
            Failure::NoMemory | Failure::Output => 5,
        }
    }

    // Why no store was made.
    pub(crate) fn of_creation(error: CreateError) -> Failure
        ensures { result ≡ failure_of_creation error }
    {
        match error {
            CreateError::Graph(fault) => match fault.error {
                GraphError::NoMemory => Failure::NoMemory,
                _ => Failure::Graph(fault),
            },
            CreateError::Store(error) => Failure::Store(error),
        }
    }

    // Why a session did not come to its end.
    pub(crate) fn of_session(error: SessionError) -> Failure
        ensures { result ≡ failure_of_session error }
    {
        match error {
            SessionError::Read => Failure::CannotRead,
            SessionError::Write => Failure::Output,
            SessionError::Script(line, fault) => Failure::Script(line, fault),
            SessionError::NoMemory => Failure::NoMemory,
        }
    }

    // Why the whole report was not written.
    pub(crate) fn of_report(error: ReportError) -> Failure
        ensures { result ≡ failure_of_report error }
    {
        match error {
            ReportError::Write => Failure::Output,
            ReportError::NoMemory => Failure::NoMemory,
        }
    }

    // Why a store was not turned over.
    pub(crate) fn of_turn(error: CoreError) -> Failure
        ensures { result ≡ failure_of_turn error }
    {
        match error {
            CoreError::Store(error) => Failure::Store(error),
            // A turnover is never refused for this cause.
            CoreError::Refused(_) => Failure::Store(VaultError::Halted),
        }
    }
}

// The status of an error of the store.
fn store_status(error: &VaultError) -> u8
    ensures { result ≡ store_status error.now }
{
    match error {
        VaultError::Device | VaultError::NoMemory | VaultError::Halted => 5,
        VaultError::Full | VaultError::NotAStore | VaultError::Exists | VaultError::Damaged(..) => {
            4
        }
    }
}

/// A failure, and the path of the graph or the script of the command.
#[derive(Clone, Copy)]
pub(crate) struct NamedFailure<'a> {
    pub(crate) failure: &'a Failure,
    pub(crate) input: &'a str,
}

impl<'a> fmt::Display for NamedFailure<'a> {
    ghost output = { λ named. Some (failure_text named.input.now named.failure.now) };

    fn fmt<W: fmt::Write>(&self, f: &mut fmt::Formatter<W>) -> fmt::Result {
        let input = self.input;
        match self.failure {
            Failure::Graph(fault) => write!(f, "graph refused {fault}"),
            Failure::Script(line, fault) => {
                let number = fault.number();
                write!(f, "script refused {number} at line {line}")
            }
            Failure::CannotRead => write!(f, "cannot read {input}"),
            Failure::Store(error) => write_store(f, error),
            Failure::NoMemory => write!(f, "no memory"),
            Failure::Output => Ok(()),
        }
    }
}

// Writes the message for an error of the store.
fn write_store<W: fmt::Write>(f: &mut fmt::Formatter<W>, error: &VaultError) -> fmt::Result
    ensures { WritesOnOk W.write_str_gives f.old result (store_text error.now) f.new }
{
    match error {
        VaultError::Device => write!(f, "device failed"),
        VaultError::NoMemory => write!(f, "no memory"),
        VaultError::Halted => write!(f, "store refused: halted"),
        VaultError::Full => write!(f, "store refused: full"),
        VaultError::NotAStore => write!(f, "store refused: not a store"),
        VaultError::Exists => write!(f, "store refused: exists"),
        VaultError::Damaged(side, place) => {
            let name = side_name(*side);
            write!(f, "store refused: damaged {name} at {place}")
        }
    }
}

// The name of a file.
fn side_name(side: Side) -> &'static str
    ensures { result.now ≡ side_text side }
{
    match side {
        Side::A => "A",
        Side::B => "B",
    }
}
