//! A reader and a writer that fail at one of their calls.
use std::alloc::Global;
use std::io::{self, Read, Write};

// How many bytes the reader gives at once, at most.
const PIECE: usize = 16;

/// At which read and at which write there is an error, counted from 1; 0 for none. If it is hidden, the read gives nothing in its
/// place, as at the end, and the write says that all was written: so the program over it is one that does not see errors.
#[derive(Clone, Copy, Debug, PartialEq, Eq)]
pub(crate) struct Limits {
    pub(crate) read: u64,
    pub(crate) write: u64,
    pub(crate) is_hidden: bool,
}

impl Limits {
    /// Neither fails.
    pub(crate) fn none() -> Limits {
        Limits {
            read: 0,
            write: 0,
            is_hidden: false,
        }
    }
}

/// Counts calls down to the one that fails.
#[derive(Clone, Copy, Debug, PartialEq, Eq)]
pub(crate) struct Countdown {
    // How many calls there are up to the one that fails, and that one; 0 if none will.
    left: u64,
    failed: bool,
}

impl Countdown {
    /// The call with this number fails, counted from 1; 0 for none.
    pub(crate) fn new(number: u64) -> Countdown {
        Countdown {
            left: number,
            failed: false,
        }
    }

    /// Counts a call, and returns whether it is the one that fails.
    pub(crate) fn falls(&mut self) -> bool {
        let falls = self.left == 1;
        self.left = self.left.saturating_sub(1);
        if falls {
            self.failed = true;
        }
        falls
    }

    /// Whether the call that fails was made.
    pub(crate) fn has_failed(&self) -> bool {
        self.failed
    }
}

/// A reader of a text that fails at one of its reads.
#[derive(Drop)]
pub(crate) struct FailingReader<'a> {
    text: &'a [u8],
    count: Countdown,
    is_hidden: bool,
}

impl<'a> FailingReader<'a> {
    pub(crate) fn new(text: &'a [u8], limits: &Limits) -> Self {
        FailingReader {
            text,
            count: Countdown::new(limits.read),
            is_hidden: limits.is_hidden,
        }
    }

    /// Whether a read failed.
    pub(crate) fn has_failed(&self) -> bool {
        self.count.has_failed()
    }
}

impl<'a> Read for FailingReader<'a> {
    fn read(&mut self, buf: &mut [u8]) -> io::Result<usize> {
        if self.count.falls() {
            if self.is_hidden {
                return Ok(0);
            }
            return Err(io::Error::from(io::ErrorKind::IsADirectory));
        }
        let count = self.text.len().min(buf.len()).min(PIECE);
        let (piece, rest) = self.text.split_at(count);
        buf[..count].copy_from_slice(piece);
        self.text = rest;
        Ok(count)
    }
}

/// A writer that keeps what is written, and fails at one of its writes.
#[derive(Drop)]
pub(crate) struct FailingWriter {
    text: Vec<u8>,
    count: Countdown,
    is_hidden: bool,
    went_on: bool,
}

impl FailingWriter {
    pub(crate) fn new(alloc: Global, limits: &Limits) -> Self {
        FailingWriter {
            text: Vec::new(alloc),
            count: Countdown::new(limits.write),
            is_hidden: limits.is_hidden,
            went_on: false,
        }
    }

    /// What was written.
    pub(crate) fn text(&self) -> &[u8] {
        self.text.as_slice()
    }

    /// Whether a write failed.
    pub(crate) fn has_failed(&self) -> bool {
        self.count.has_failed()
    }

    /// Whether something was written after that.
    pub(crate) fn went_on(&self) -> bool {
        self.went_on
    }
}

impl Write for FailingWriter {
    fn write(&mut self, buf: &[u8]) -> io::Result<usize> {
        if self.count.has_failed() {
            self.went_on = true;
        }
        if self.count.falls() {
            if self.is_hidden {
                return Ok(buf.len());
            }
            return Err(io::Error::from(io::ErrorKind::StorageFull));
        }
        match self.text.extend_from_slice(buf) {
            Ok(()) => Ok(buf.len()),
            Err(_) => Err(io::Error::from(io::ErrorKind::OutOfMemory)),
        }
    }

    fn flush(&mut self) -> io::Result<()> {
        Ok(())
    }
}
