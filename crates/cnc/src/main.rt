//! The program: it does what its words ask for, and exits with the status of that.
#![tactic(auto)]

ghost use Rattle.cli.specs.Words.{IsInRange};

mod console;
mod opening_bar;
mod pointing;
mod progress;

use clap::Error;
use clap::error::ErrorKind;
use cli::{Command, collect_words, obey, read_words, usage_status};
use console::{Console, Kept};
use disk::{Disk, DiskError, FileDisk, MemDisk};
use opening_bar::{Bar, Opening};
use pool::{AlwaysGo, Crew, Driver, Probe};
use progress::{Certifying, Cleared, Telling};
use std::env;
use std::fs::{self, File, OpenOptions};
use std::io::{self, BufWriter, Eprint, ErrorKind as Cause, IsTerminal, Read, Write};
use std::marker::Sync;
use std::path::Path;
use std::process::ExitCode;
use std::sync::Wait;
use std::thread::Threads;
use std::time::Clock;

/// What workers need from the program: threads, waiting, the clock, and the error output for their progress.
trait Handles: Threads + Wait + Sync + Clock + Eprint {}

impl<H: Threads + Wait + Sync + Clock + Eprint> Handles for H {}

/// A disk that may keep what the system returned for the last call that it refused, and may show how much of a file is read.
trait Refusing {
    fn refused_for(&self) -> Option<io::Error>;

    /// Shows from now on how much of a long read is done.
    fn show(&mut self, bar: Bar);
}

impl Refusing for MemDisk {
    fn refused_for(&self) -> Option<io::Error> {
        None
    }

    fn show(&mut self, _bar: Bar) {}
}

// The statuses: a file cannot be read; a device, memory or an output failed.
const CANNOT_READ: u8 = 2;

const FAILED: u8 = 5;

fn main(rt: HostRuntime) -> ExitCode {
    let status = match run(&rt, &rt) {
        Ok(status) => status,
        Err(error) => without_command(&rt, &error),
    };
    ExitCode::from(status)
}

// Says why the words ask for no command, and returns the status of that.
fn without_command(rt: &HostRuntime, error: &Error) -> u8 {
    if error.kind() == ErrorKind::OutOfMemory {
        return refused(rt, "no memory");
    }
    let status = usage_status(error);
    match error.print(rt) {
        // The help that was asked for could not be written.
        Err(_) if status == 0 => FAILED,
        _ => status,
    }
}

/// Does what the words ask for, and returns the exit status.
///
/// An `Err` says why the words ask for no command.
fn run<H: Handles>(rt: &HostRuntime, threads: &H) -> Result<u8, Error> {
    let words = collect_words(rt)?;
    let command = read_words(rt.alloc(), words.as_slice())?;
    Ok(with_input(rt, threads, &command))
}

// Opens the input of a command, and does the command. The input of a command that reads nothing is empty.
fn with_input<H: Handles>(rt: &HostRuntime, threads: &H, command: &Command<'_>) -> u8
    requires { IsInRange command.now }
{
    let path = command.input();
    match path {
        "" => with_disk(rt, threads, command, &mut [].as_slice()),
        "-" => with_disk(rt, threads, command, &mut rt.stdin()),
        _ => match File::open(rt, path) {
            Ok(mut file) => with_disk(rt, threads, command, &mut file),
            Err(error) => {
                let mut err = rt.stderr();
                let _ = writeln!(err, "cannot read {path}");
                if err.is_terminal() {
                    let _ = writeln!(err, "  {error}");
                }
                CANNOT_READ
            }
        },
    }
}

// Opens the directory of a command, if it needs one, and does the command. The directory of a new store is made, if it is not there.
fn with_disk<R: Read, H: Handles>(
    rt: &HostRuntime,
    threads: &H,
    command: &Command<'_>,
    input: &mut R,
) -> u8
    requires { IsInRange command.now }
{
    if let Command::Draw { .. } = command {
        return pointed(rt, threads, command, MemDisk::new(rt.alloc()), input);
    }
    if let Command::Create { directory, .. } = command {
        // If it is there already, or cannot be made, that is seen when it is opened.
        let _ = fs::create_dir(rt, directory);
    }
    match opened(rt, command) {
        Ok(disk) => pointed(rt, threads, command, Opening::new(disk), input),
        Err(DiskError::Device) => no_directory(rt, command.directory()),
        Err(DiskError::NoMemory) => refused(rt, "no memory"),
    }
}

// Opens the files of a command: to be read alone if it changes nothing, unless they are not there or another program has them open.
fn opened(rt: &HostRuntime, command: &Command<'_>) -> Result<FileDisk, DiskError> {
    let directory = command.directory();
    if changes_nothing(command) {
        if let Ok(disk) = FileDisk::open_to_read(rt.alloc(), rt, directory) {
            return Ok(disk);
        }
    }
    FileDisk::open(rt.alloc(), rt, directory)
}

// Whether a command leaves the files of a store as they are.
fn changes_nothing(command: &Command<'_>) -> bool {
    matches!(
        command,
        Command::Report { .. }
            | Command::ReportAt { .. }
            | Command::Log { .. }
            | Command::Verify { .. }
            | Command::DrawStore { .. }
    )
}

// Does a command on a disk, with a crew for its steps. If the error output is a terminal, it points at a fault, shows
// the progress of a long opening, run and certificate, and says why the system refused a call.
fn pointed<D: Disk + Refusing + Send + Drop, R: Read, H: Handles>(
    rt: &HostRuntime,
    threads: &H,
    command: &Command<'_>,
    mut disk: D,
    input: &mut R,
) -> u8
    requires { IsInRange command.now }
{
    let workers = command.workers();
    if !rt.stderr().is_terminal() {
        let Ok(mut out) = BufWriter::new(rt.alloc(), rt.stdout()) else {
            return refused(rt, "no memory");
        };
        let driver = Driver::Crew(Crew::new(threads, workers, AlwaysGo));
        let mut err = Console::plain(rt);
        return done(rt, command, disk, input, &mut out, &mut err, &driver).0;
    }
    let Ok((bar, shown)) = Bar::new(*rt) else {
        return refused(rt, "no memory");
    };
    disk.show(bar);
    let telling = Telling::new(threads, workers, &shown);
    let driver = Driver::Crew(Crew::new(threads, workers, telling));
    let mut input = Kept::new(*rt, input, &shown);
    let Ok(mut out) = BufWriter::new(rt.alloc(), Cleared::new(threads, rt.stdout(), &shown)) else {
        return refused(rt, "no memory");
    };
    let certifying = Certifying::new(threads, &shown);
    let mut err = Console::on_terminal(rt, certifying, wants_colours(rt));
    let (status, cause) = done(rt, command, disk, &mut input, &mut out, &mut err, &driver);
    if let Some(place) = err.place() {
        input.point(place);
    }
    if let Some(cause) = cause {
        let _ = writeln!(rt.stderr(), "  {cause}");
    }
    status
}

// Whether a terminal shows colours: unless the variable `NO_COLOR` has a text, or `TERM` says that it has none.
fn wants_colours(rt: &HostRuntime) -> bool {
    let refused = match env::var(rt, "NO_COLOR") {
        Ok(text) => !text.is_empty(),
        Err(_) => false,
    };
    let dumb = match env::var(rt, "TERM") {
        Ok(name) => name.as_str() == "dumb",
        Err(_) => true,
    };
    !refused && !dumb
}

// Does a command, and returns its status and why the system refused a call, if it did.
fn done<D: Disk + Refusing + Send + Drop, R: Read, W: Write, H: Handles, P: Probe>(
    rt: &HostRuntime,
    command: &Command<'_>,
    disk: D,
    input: &mut R,
    out: &mut W,
    err: &mut Console<'_, H>,
    driver: &Driver<'_, H, P>,
) -> (u8, Option<io::Error>) {
    let (disk, status) = obey(rt.alloc(), command, disk, input, out, err, driver);
    let cause = disk.refused_for();
    drop(disk);
    (flushed(out, status), cause)
}

// Says that a directory could not be opened and, on a terminal, why that may be.
fn no_directory(rt: &HostRuntime, directory: &str) -> u8 {
    let status = refused(rt, "device failed");
    if rt.stderr().is_terminal() {
        tell_obstacle(rt, directory);
    }
    status
}

// Says what keeps a directory from being opened.
fn tell_obstacle(rt: &HostRuntime, directory: &str) {
    let mut err = rt.stderr();
    let _ = match obstacle(rt, directory) {
        Err(error) if error.kind() == Cause::WouldBlock => {
            writeln!(err, "  Another program has {directory} open.")
        }
        Err(error) => writeln!(err, "  {directory}: {error}"),
        Ok(()) => writeln!(err, "  Is {directory} a directory that you may write to?"),
    };
}

// Meets what keeps a directory from being opened: it is not there, its first file may not be opened, or another program has locked that.
fn obstacle(rt: &HostRuntime, directory: &str) -> io::Result<()> {
    File::open(rt, directory)?;
    let path = Path::new(directory)
        .join(rt.alloc(), "A")
        .map_err(|_| io::Error::from(Cause::OutOfMemory))?;
    let file = OpenOptions::new()
        .read(true)
        .write(true)
        .open(rt, path.as_path())?;
    file.try_lock()?;
    Ok(())
}

// Says why a command was not begun.
fn refused(rt: &HostRuntime, why: &str) -> u8 {
    let _ = writeln!(rt.stderr(), "{why}");
    FAILED
}

// Writes the output that a command may still hold back, and returns the status. If that fails, the output failed, unless
// the graph or the script was refused before.
fn flushed<W: Write>(out: &mut W, status: u8) -> u8 {
    match out.flush() {
        Ok(()) => status,
        Err(_) if status == CANNOT_READ => status,
        Err(_) => FAILED,
    }
}
