//! A call of the program, with all that it wrote.
ghost use Rattle.cli.specs.Words.{IsInRange};

use cli::{Command, obey, read_words, usage_status};
use disk::MemDisk;
use pool::{AlwaysGo, Crew, Driver};
use std::alloc::{AllocError, Global};
use std::io::{self, Read, Write};
use std::sync::Wait;
use std::thread::Threads;
use test_cases::Names;

/// Whether the input and the output of a call work.
#[derive(Clone, Copy, Debug, PartialEq, Eq)]
pub(crate) enum Streams {
    Work,
    InputFails,
    OutputFails,
    OutputHeld,
}

// A reader and a writer that return an error from each call.
#[derive(Drop)]
struct Failing;

impl Read for Failing {
    fn read(&mut self, _buf: &mut [u8]) -> io::Result<usize> {
        Err(io::Error::from(io::ErrorKind::IsADirectory))
    }
}

impl Write for Failing {
    fn write(&mut self, _buf: &[u8]) -> io::Result<usize> {
        Err(io::Error::from(io::ErrorKind::StorageFull))
    }

    fn flush(&mut self) -> io::Result<()> {
        Ok(())
    }
}

// A writer that holds back what it is given, and returns an error where it should write it.
#[derive(Drop)]
struct Holding;

impl Write for Holding {
    fn write(&mut self, buf: &[u8]) -> io::Result<usize> {
        Ok(buf.len())
    }

    fn flush(&mut self) -> io::Result<()> {
        Err(io::Error::from(io::ErrorKind::StorageFull))
    }
}

/// Reads the words, and writes the command that they ask for.
pub(crate) fn read(alloc: Global, line: &str) -> Result<String, AllocError> {
    let words: Vec<&str> = line.split(' ').collect(alloc)?;
    let mut told = String::new(alloc);
    match read_words(alloc, words.as_slice()) {
        Ok(command) => {
            let file = command.input();
            let directory = command.directory();
            let workers = command.workers();
            writeln!(told, "{command:?}")?;
            writeln!(
                told,
                "file {file:?}, directory {directory:?}, workers {workers}"
            )?;
        }
        Err(error) => writeln!(told, "usage: status {}", usage_status(&error))?,
    }
    Ok(told)
}

/// Reads the words, does what they ask for on the disk, and returns what was written, and the status if that is not 0.
/// If the words give the number of workers, a crew of that number runs the steps; else the calling thread does.
pub(crate) fn call<R: Threads + Wait + Sync>(
    rt: &R,
    alloc: Global,
    names: &Names,
    line: &str,
    text: &str,
    streams: Streams,
    disk: MemDisk,
) -> Result<(MemDisk, String), AllocError> {
    let words: Vec<&str> = line.split(' ').collect(alloc)?;
    match read_words(alloc, words.as_slice()) {
        Ok(command) => {
            let input = match names.bytes(command.input()) {
                Some(bytes) => bytes,
                None => text.as_bytes(),
            };
            let driver = if line.contains("--workers") {
                crew(rt, &command)
            } else {
                Driver::Alone
            };
            obeyed(alloc, &command, input, streams, disk, &driver)
        }
        Err(error) => {
            let mut told = String::new(alloc);
            writeln!(told, "usage: status {}", usage_status(&error))?;
            Ok((disk, told))
        }
    }
}

// A crew of as many workers as the command says.
fn crew<'a, R: Threads + Wait + Sync>(rt: &'a R, command: &Command<'_>) -> Driver<'a, R, AlwaysGo>
    requires { IsInRange command.now }
{
    Driver::Crew(Crew::new(rt, command.workers(), AlwaysGo))
}

// Does a command on the disk, with this driver for its steps. Returns what was written, and the status if that is not 0.
fn obeyed<R: Threads + Wait + Sync>(
    alloc: Global,
    command: &Command<'_>,
    input: &[u8],
    streams: Streams,
    disk: MemDisk,
    driver: &Driver<'_, R, AlwaysGo>,
) -> Result<(MemDisk, String), AllocError> {
    let mut input = input;
    let mut out = Vec::new(alloc);
    let mut err = Vec::new(alloc);
    let (disk, status) = match streams {
        Streams::Work => obey(alloc, command, disk, &mut input, &mut out, &mut err, driver),
        Streams::InputFails => obey(
            alloc,
            command,
            disk,
            &mut Failing,
            &mut out,
            &mut err,
            driver,
        ),
        Streams::OutputFails => obey(
            alloc,
            command,
            disk,
            &mut input,
            &mut Failing,
            &mut err,
            driver,
        ),
        Streams::OutputHeld => obey(
            alloc,
            command,
            disk,
            &mut input,
            &mut Holding,
            &mut err,
            driver,
        ),
    };
    let mut told = String::new(alloc);
    told.push_str(str::from_utf8(out.as_slice()).unwrap_or("no text\n"))?;
    for line in str::from_utf8(err.as_slice())
        .unwrap_or("no text\n")
        .lines()
    {
        writeln!(told, "! {line}")?;
    }
    if status != 0 {
        writeln!(told, "status {status}")?;
    }
    Ok((disk, told))
}
