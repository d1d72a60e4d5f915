//! The commands.
//!
//! - `text NAME`: gives the name to what stands below it
//! - `new`: an empty disk in place of the one that was there
//! - `cnc WORDS`: the program with these words on the disk. `GRAPH` is the name of a text; `-` reads what stands below.
//!   The result is what the program wrote, then after `! ` what it wrote on its error output, and a line with its status
//!   if that is not 0
//! - `full WORDS`: the same, but each write of the output fails
//! - `held WORDS`: the same, but the output takes all that is written, and cannot be flushed
//! - `unreadable WORDS`: the same, but each read of the input fails
//! - `alone LIMIT`: the script that stands below, on the store that is on the disk, with this limit for each run, by a
//!   session that has no threads. The result is what it wrote, and after `! ` why it did not come to its end
//! - `words WORDS`: the command that these words ask for, with the file that it reads, its directory and its workers
//! - `fail N`: the N-th call of the disk from now fails
//! - `byte SIDE PLACE VALUE`: changes this byte
//! - `sizes`: how many bytes the two files have
use crate::{alone, calls};
use disk::{Disk, DiskError, MemDisk, Side};
use std::alloc::{AllocError, Global};
use std::mem;
use std::sync::Wait;
use std::thread::Threads;
use test_cases::{Names, texts};

/// The commands, with the names that a file has given and its disk.
#[derive(Drop)]
pub(crate) struct Commands<'a, R> {
    rt: &'a R,
    // How many workers run the steps if the words do not say it; empty for the calling thread.
    workers: &'a str,
    names: Names,
    disk: MemDisk,
}

impl<'a, R: Threads + Wait + Sync> Commands<'a, R> {
    /// An empty disk, and no names yet; with this number of workers if the words do not say it.
    pub(crate) fn new(rt: &'a R, alloc: Global, workers: &'a str) -> Self {
        Commands {
            rt,
            workers,
            names: Names::new(alloc),
            disk: MemDisk::new(alloc),
        }
    }

    /// The result of a command with its input.
    pub(crate) fn answer(
        &mut self,
        alloc: Global,
        command: &str,
        input: &str,
    ) -> Result<String, AllocError> {
        let (word, rest) = command.split_once(' ').unwrap_or((command, ""));
        match word {
            "text" => {
                let text = texts::lines_of(alloc, input)?;
                self.names.give(rest, text.into_bytes())?;
                Ok(String::new(alloc))
            }
            "new" => {
                self.disk = MemDisk::new(alloc);
                Ok(String::new(alloc))
            }
            "words" => calls::read(alloc, command),
            "alone" => self.alone(alloc, rest, input),
            "cnc" => self.call(alloc, command, input, calls::Streams::Work),
            "full" => self.call(alloc, command, input, calls::Streams::OutputFails),
            "held" => self.call(alloc, command, input, calls::Streams::OutputHeld),
            "unreadable" => self.call(alloc, command, input, calls::Streams::InputFails),
            _ => self.on_disk(alloc, word, rest),
        }
    }

    // Runs a script on the store on the disk, on this thread.
    fn alone(&mut self, alloc: Global, limit: &str, input: &str) -> Result<String, AllocError> {
        let text = texts::lines_of(alloc, input)?;
        let limit = limit.parse::<u64>().unwrap_or(0);
        let disk = mem::replace(&mut self.disk, MemDisk::new(alloc));
        let (disk, told) = alone::run(alloc, disk, text.as_str(), limit)?;
        self.disk = disk;
        Ok(told)
    }

    // Calls the program on the disk.
    fn call(
        &mut self,
        alloc: Global,
        words: &str,
        input: &str,
        streams: calls::Streams,
    ) -> Result<String, AllocError> {
        let text = texts::lines_of(alloc, input)?;
        let words = self.with_workers(alloc, words)?;
        let disk = mem::replace(&mut self.disk, MemDisk::new(alloc));
        let (disk, told) = calls::call(
            self.rt,
            alloc,
            &self.names,
            words.as_str(),
            text.as_str(),
            streams,
            disk,
        )?;
        self.disk = disk;
        Ok(told)
    }

    // The words of a command; with the number of workers, if they run a script and do not say it.
    fn with_workers(&self, alloc: Global, words: &str) -> Result<String, AllocError> {
        let mut line = String::from_str(alloc, words)?;
        if words.starts_with("cnc run ")
            && !words.contains("--workers")
            && !self.workers.is_empty()
        {
            line.push_str(" --workers ")?;
            line.push_str(self.workers)?;
        }
        Ok(line)
    }

    // A command on the disk itself.
    fn on_disk(&mut self, alloc: Global, word: &str, rest: &str) -> Result<String, AllocError> {
        match word {
            "fail" => match rest.parse::<u64>() {
                Ok(number) => {
                    self.disk.fail_call(number);
                    Ok(String::new(alloc))
                }
                Err(_) => String::from_str(alloc, "no number\n"),
            },
            "byte" => self.change(alloc, rest),
            "sizes" => self.sizes(alloc),
            _ => String::from_str(alloc, "no such command\n"),
        }
    }

    // Changes a byte: `SIDE PLACE VALUE`.
    fn change(&mut self, alloc: Global, words: &str) -> Result<String, AllocError> {
        let (side, rest) = words.split_once(' ').unwrap_or((words, ""));
        let (place, value) = rest.split_once(' ').unwrap_or((rest, ""));
        let side = if side == "B" { Side::B } else { Side::A };
        match (place.parse::<u64>(), value.parse::<u8>()) {
            (Ok(place), Ok(value)) => match write(&mut self.disk, side, place, value) {
                Ok(()) => Ok(String::new(alloc)),
                Err(error) => error.to_string(alloc),
            },
            _ => String::from_str(alloc, "no numbers\n"),
        }
    }

    // How many bytes the files have.
    fn sizes(&mut self, alloc: Global) -> Result<String, AllocError> {
        let mut told = String::new(alloc);
        match (self.disk.len(Side::A), self.disk.len(Side::B)) {
            (Ok(a), Ok(b)) => writeln!(told, "A {a}, B {b}")?,
            _ => told.push_str("no length\n")?,
        }
        Ok(told)
    }
}

// Changes a byte that is there.
fn write(disk: &mut MemDisk, side: Side, place: u64, value: u8) -> Result<(), DiskError> {
    if place >= disk.len(side)? {
        return Err(DiskError::Device);
    }
    disk.write_at(side, place, &[value])?;
    disk.sync(side)
}
