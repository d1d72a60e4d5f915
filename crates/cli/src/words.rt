//! The words of a command line, read by `clap`.
ghost use Rattle.std.specs.Prelude.{◌≡◌, ◌≢◌, ◌≤◌, ◌⊎◌, IfErr, IfOk, IfSome, MatchOption};
ghost use Rattle.clap.specs.Words.{kind_of};
ghost use Rattle.report.specs.declared.format.Format.{Format as ReportFormat};
ghost use Rattle.cli.specs.Words.{IsInRange, format_word, usage_status_of};

use clap::builder::ValueParser;
use clap::error::ErrorKind;
use clap::{Arg, ArgAction, ArgMatches, Error};
use report::Format;
use std::alloc::{AllocError, Global};
use std::convert::AsStr;
use std::env::Env;
use std::{env, io};

/// The most ends of steps that one run may commit.
pub const MOST_LIMIT: u64 = 1_000_000_000;

/// The most workers.
pub const MOST_WORKERS: u8 = 64;

// What `--version` prints behind the program's name.
const VERSION: &str = "0.1, stores of format 1";

// The words for the formats of a report.
static FORMATS: [&str; 3] = ["text", "csv", "json"];

// The help for the file of a graph.
const GRAPH_HELP: &str = "The file with the text of the graph; - is the standard input";

/// What the program is asked to do.
#[derive(Clone, Copy, Debug, PartialEq, Eq)]
pub enum Command<'a> {
    /// Make a store in the directory, of the graph in this file.
    Create {
        graph: &'a str,
        directory: &'a str,
    },
    /// Run the script in this file on the store in the directory with this number of workers. Each of its runs commits
    /// at most `limit` ends of steps.
    Run {
        directory: &'a str,
        script: &'a str,
        limit: u64,
        workers: u8,
    },
    /// Print the report of the store in the directory, in this format.
    Report {
        directory: &'a str,
        format: Format,
    },
    /// Print the report of the store in the directory, in this format, as the store was after this number of its commits since the last
    /// turnover, or after all if there are no more.
    ReportAt {
        directory: &'a str,
        format: Format,
        at: u64,
    },
    /// Print the log of the store in the directory: its commits since the last turnover.
    Log {
        directory: &'a str,
    },
    /// Turn over the store in the directory: write it anew, without the records that led to what it holds.
    Turn {
        directory: &'a str,
    },
    /// Verify the store in the directory: look whether what it holds is what its steps can have come to.
    Verify {
        directory: &'a str,
    },
    /// Draw the graph in this file as Graphviz text. It needs no store.
    Draw {
        graph: &'a str,
    },
    /// Draw the store in the directory as Graphviz text, with each instance that waits if `all` are asked for.
    DrawStore {
        directory: &'a str,
        all: bool,
    },
}

impl<'a> Command<'a> {
    /// The directory of the store, or the empty text if none is needed.
    pub fn directory(&self) -> &'a str {
        match self {
            Command::Create { directory, .. }
            | Command::Run { directory, .. }
            | Command::Report { directory, .. }
            | Command::ReportAt { directory, .. }
            | Command::Log { directory }
            | Command::Turn { directory }
            | Command::Verify { directory }
            | Command::DrawStore { directory, .. } => directory,
            Command::Draw { .. } => "",
        }
    }

    /// How many workers run its steps. A command that runs none has one.
    pub fn workers(&self) -> u8
        requires { IsInRange self.now }
        ensures { (1 ≤ result) × (result ≤ 64) }
    {
        match self {
            Command::Run { workers, .. } => *workers,
            _ => 1,
        }
    }

    /// The path of the file that it reads, or the empty text if it reads none. `-` is the standard input.
    pub fn input(&self) -> &'a str {
        match self {
            Command::Create { graph, .. } | Command::Draw { graph } => graph,
            Command::Run { script, .. } => script,
            Command::Report { .. }
            | Command::ReportAt { .. }
            | Command::Log { .. }
            | Command::Turn { .. }
            | Command::Verify { .. }
            | Command::DrawStore { .. } => "",
        }
    }
}

/// Reads the command that `words` ask for. The first word is the program's name.
///
/// An `Err` is `clap`'s: the help that was asked for, a fault in the words, or memory that was refused.
pub fn read_words<'a, S: AsStr>(alloc: Global, words: &'a [S]) -> Result<Command<'a>, Error>
    ensures { IfOk result IsInRange }
{
    let mut line = command_line(alloc)?;
    let matches = line.try_get_matches_from_mut(words)?;
    match command_in(&matches) {
        Some(command) => Ok(command),
        None => Err(line.error(ErrorKind::MissingSubcommand, "no command is given")?),
    }
}

/// The words that the process was started with. The first word is the program's name.
///
/// An `Err` is of kind `Io` if a word is not UTF-8 text; else memory was refused.
pub fn collect_words<R: Env + AllocGlobal>(rt: &R) -> Result<Vec<String>, Error>
    ensures { IfErr result (λ e. (kind_of e ≡ ErrorKind.OutOfMemory) ⊎ (kind_of e ≡ ErrorKind.Io)) }
{
    match env::args(rt) {
        Ok(words) => Ok(words.collect(rt.alloc())?),
        Err(error) if error.kind() == io::ErrorKind::OutOfMemory => Err(Error::from(AllocError)),
        Err(_) => {
            let mut line = command_line(rt.alloc())?;
            Err(line.error(ErrorKind::Io, "a word is not UTF-8 text")?)
        }
    }
}

/// The exit status of a command line that could not be read: 0 if help was asked for, 5 if memory was refused, else 2.
pub fn usage_status(error: &Error) -> u8
    ensures { result ≡ usage_status_of (kind_of error.now) }
{
    match error.kind() {
        ErrorKind::DisplayHelp | ErrorKind::DisplayVersion => 0,
        ErrorKind::OutOfMemory => 5,
        _ => 2,
    }
}

// The command in these matches. `clap` has checked the words before, so there is one.
fn command_in<'a>(matches: &ArgMatches<'a>) -> Option<Command<'a>>
    ensures { IfSome result IsInRange }
{
    let (name, found) = matches.subcommand()?;
    if name == "draw" {
        return drawing_in(found);
    }
    let directory = found.get_str("DIR")?;
    match name {
        "create" => {
            let graph = found.get_str("GRAPH")?;
            Some(Command::Create { graph, directory })
        }
        "run" => {
            let script = found.get_str("SCRIPT")?;
            let limit = found.get_one::<u64>("limit")?;
            let workers = u8::try_from(found.get_one::<u64>("workers")?).ok()?;
            if limit > MOST_LIMIT || workers == 0 || workers > MOST_WORKERS {
                return None;
            }
            Some(Command::Run {
                directory,
                script,
                limit,
                workers,
            })
        }
        "report" => report_in(found, directory),
        "log" => Some(Command::Log { directory }),
        "turn" => Some(Command::Turn { directory }),
        "verify" => Some(Command::Verify { directory }),
        _ => None,
    }
}

// The command to print the report of the store in this directory.
fn report_in<'a>(found: &ArgMatches<'a>, directory: &'a str) -> Option<Command<'a>>
    ensures { IfSome result IsInRange }
{
    let format = format_of(found.get_str("format")?)?;
    match found.get_one::<u64>("at") {
        Some(at) => Some(Command::ReportAt {
            directory,
            format,
            at,
        }),
        None => Some(Command::Report { directory, format }),
    }
}

// The format that a word asks for, if it is the word for one.
fn format_of(word: &str) -> Option<Format>
    ensures { MatchOption result ((format : ReportFormat) → word.now ≢ format_word format)
        (λ format. word.now ≡ format_word format) }
{
    match word {
        "text" => Some(Format::Text),
        "csv" => Some(Format::Csv),
        "json" => Some(Format::Json),
        _ => None,
    }
}

// The command to draw a store, or else a graph.
fn drawing_in<'a>(found: &ArgMatches<'a>) -> Option<Command<'a>>
    ensures { IfSome result IsInRange }
{
    match found.get_str("store") {
        Some(directory) => {
            let all = found.get_flag("all");
            Some(Command::DrawStore { directory, all })
        }
        None => {
            let graph = found.get_str("GRAPH")?;
            Some(Command::Draw { graph })
        }
    }
}

// The command line as `clap` is to read it.
fn command_line<'a>(alloc: Global) -> Result<clap::Command<'a>, AllocError> {
    let line = clap::Command::new(alloc, "cnc")
        .about("Runs graphs of Concurrent Collections on stores that survive a crash")
        .version(VERSION)
        .after_help(
            "Try: cnc create fib.graph store && cnc run store fib.script\n\nStatus: 0 all is done, 1 some step is not done, 2 a usage, graph or script fault, 3 a fault stopped the store,\n4 the store is refused, not verified or full, 5 the device, memory, a thread or the output failed, 6 the limit was met.",
        )
        .subcommand_required(true);
    let line = with_command(Ok(line), create_line(alloc));
    let line = with_command(line, run_line(alloc));
    let line = with_command(line, report_line(alloc));
    let line = with_command(line, log_line(alloc));
    let line = with_command(line, turn_line(alloc));
    let line = with_command(line, verify_line(alloc));
    with_command(line, draw_line(alloc))
}

// A line with one more command. This function alone has the early exits of both, so that a caller does not drop a long
// line at each of them.
fn with_command<'a>(
    line: Result<clap::Command<'a>, AllocError>,
    command: Result<clap::Command<'a>, AllocError>,
) -> Result<clap::Command<'a>, AllocError> {
    let line = line?;
    let command = command?;
    line.subcommand(command)
}

// A line with one more argument.
fn with_argument<'a>(
    line: Result<clap::Command<'a>, AllocError>,
    argument: Arg<'a>,
) -> Result<clap::Command<'a>, AllocError> {
    let line = line?;
    line.arg(argument)
}

fn create_line<'a>(alloc: Global) -> Result<clap::Command<'a>, AllocError> {
    let line = clap::Command::new(alloc, "create")
        .about("Make a store of a graph in a directory that has none")
        .after_help("Example: cnc create fib.graph store");
    let line = with_argument(Ok(line), graph(alloc));
    with_argument(line, new_directory(alloc))
}

fn run_line<'a>(alloc: Global) -> Result<clap::Command<'a>, AllocError> {
    let line = clap::Command::new(alloc, "run")
        .about("Run a script on a store, and print the replies and the report")
        .after_help(
            "A line of a script is one of\n  put [fib: 0] = 0    puts an item\n  tag <n: 2>          puts a tag\n  get [fib: 2]        prints an item\n  run                 runs all that can run\n\nExamples: cnc run store fib.script --workers 4\n          echo run | cnc run store -",
        );
    let line = with_argument(Ok(line), directory(alloc));
    let line = with_argument(line, script(alloc));
    let line = with_argument(line, workers(alloc));
    with_argument(line, limit(alloc))
}

fn report_line<'a>(alloc: Global) -> Result<clap::Command<'a>, AllocError> {
    let line = clap::Command::new(alloc, "report")
        .about("Print what a store holds")
        .after_help(
            "Examples: cnc report store\n          cnc report store --format csv > items.csv\n          cnc report store --at 3",
        );
    let line = with_argument(Ok(line), directory(alloc));
    let line = with_argument(line, format(alloc));
    with_argument(line, at(alloc))
}

fn log_line<'a>(alloc: Global) -> Result<clap::Command<'a>, AllocError> {
    let line = clap::Command::new(alloc, "log")
        .about(
            "Print the commits of a store since its last turnover, in order, each with its number",
        )
        .after_help("Example: cnc log store");
    with_argument(Ok(line), directory(alloc))
}

fn turn_line<'a>(alloc: Global) -> Result<clap::Command<'a>, AllocError> {
    let line = clap::Command::new(alloc, "turn")
        .about(
            "Write a store anew into its other file, without the records that led to what it holds",
        )
        .after_help("Example: cnc turn store");
    with_argument(Ok(line), directory(alloc))
}

fn verify_line<'a>(alloc: Global) -> Result<clap::Command<'a>, AllocError> {
    let line = clap::Command::new(alloc, "verify")
        .about("Look whether what a store holds is what its steps can have come to")
        .after_help("Example: cnc verify store");
    with_argument(Ok(line), directory(alloc))
}

fn draw_line<'a>(alloc: Global) -> Result<clap::Command<'a>, AllocError> {
    let line = clap::Command::new(alloc, "draw")
        .about("Print a graph or a store as Graphviz text")
        .after_help(
            "Example: cnc draw fib.graph | dot -Tsvg > fib.svg\n         cnc draw --store store | dot -Tsvg > store.svg",
        );
    let line = with_argument(Ok(line), drawn(alloc)?);
    let line = with_argument(line, store(alloc));
    with_argument(line, all(alloc)?)
}

fn graph<'a>(alloc: Global) -> Arg<'a> {
    wanted(alloc, "GRAPH", GRAPH_HELP)
}

// The graph that is drawn, if no store is.
fn drawn<'a>(alloc: Global) -> Result<Arg<'a>, AllocError> {
    Arg::new(alloc, "GRAPH")
        .value_parser(ValueParser::NonEmptyString)
        .help(GRAPH_HELP)
        .required_unless_present("store")?
        .conflicts_with("store")
}

fn store<'a>(alloc: Global) -> Arg<'a> {
    Arg::new(alloc, "store")
        .long("store")
        .value_name("DIR")
        .value_parser(ValueParser::NonEmptyString)
        .help("Draw the store in this directory, with what it holds and what its steps wait for")
}

fn all<'a>(alloc: Global) -> Result<Arg<'a>, AllocError> {
    Arg::new(alloc, "all")
        .long("all")
        .action(ArgAction::SetTrue)
        .help("Draw each instance that waits by itself, also where there are more than 100")
        .requires_arg("store")
}

fn directory<'a>(alloc: Global) -> Arg<'a> {
    wanted(
        alloc,
        "DIR",
        "The directory of the store, which is there already",
    )
}

fn new_directory<'a>(alloc: Global) -> Arg<'a> {
    wanted(
        alloc,
        "DIR",
        "The directory of the store; it is made if it is not there",
    )
}

fn script<'a>(alloc: Global) -> Arg<'a> {
    wanted(
        alloc,
        "SCRIPT",
        "The file with the script; - is the standard input",
    )
}

fn workers<'a>(alloc: Global) -> Arg<'a> {
    Arg::new(alloc, "workers")
        .long("workers")
        .value_name("N")
        .value_parser(ValueParser::Unsigned(1, MOST_WORKERS as u64))
        .default_value("1")
        .help("How many workers run the steps, each on a thread of its own, 1 to 64")
}

fn limit<'a>(alloc: Global) -> Arg<'a> {
    Arg::new(alloc, "limit")
        .long("limit")
        .value_name("N")
        .value_parser(ValueParser::Unsigned(0, MOST_LIMIT))
        .default_value("1000000000")
        .help("How many steps each run of the script may commit, 0 to 1000000000")
}

fn format<'a>(alloc: Global) -> Arg<'a> {
    Arg::new(alloc, "format")
        .long("format")
        .value_name("FORMAT")
        .value_parser(ValueParser::Names(FORMATS.as_slice()))
        .default_value("text")
        .help(
            "How it is printed: text; csv, which has the items alone, without counts and fault; or json, an object a line",
        )
}

fn at<'a>(alloc: Global) -> Arg<'a> {
    Arg::new(alloc, "at")
        .long("at")
        .value_name("N")
        .value_parser(ValueParser::Unsigned(0, u64::MAX))
        .help("Print the store as it was after its first N commits since the last turnover")
}

// A required argument.
fn wanted<'a>(alloc: Global, name: &'a str, help: &'a str) -> Arg<'a> {
    Arg::new(alloc, name)
        .required(true)
        .value_parser(ValueParser::NonEmptyString)
        .help(help)
}
