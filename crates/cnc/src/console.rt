//! The error output on a terminal, and the text at which it points.
use crate::pointing::{Place, point};
use crate::progress::{Certifying, clear};
use cli::Errors;
use std::io::{self, Eprint, Read, Stderr, Write};
use std::sync::atomic::AtomicU64;
use std::time::Clock;

// What a terminal takes for the begin of a text in red, and for its end.
const RED: &[u8] = b"\x1b[31m";

const PLAIN: &[u8] = b"\x1b[0m";

/// The error output, with the place of the fault that was reported on it; on a terminal with the progress of a certificate, and
/// in red where colours are wanted.
#[derive(Drop)]
pub(crate) struct Console<'a, H> {
    err: Stderr,
    place: Option<Place>,
    certifying: Option<Certifying<'a, H>>,
    colours: bool,
}

impl<'a, H: Clock + Eprint> Console<'a, H> {
    /// The error output of a file or a pipe.
    pub(crate) fn plain(rt: &HostRuntime) -> Self {
        Console {
            err: rt.stderr(),
            place: None,
            certifying: None,
            colours: false,
        }
    }

    /// The error output of a terminal.
    pub(crate) fn on_terminal(
        rt: &HostRuntime,
        certifying: Certifying<'a, H>,
        colours: bool,
    ) -> Self {
        Console {
            err: rt.stderr(),
            place: None,
            certifying: Some(certifying),
            colours,
        }
    }

    /// Where the fault is, if one was reported.
    pub(crate) fn place(&self) -> Option<Place> {
        self.place
    }
}

impl<'a, H: Clock + Eprint> Write for Console<'a, H> {
    fn write(&mut self, buf: &[u8]) -> io::Result<usize> {
        if let Some(certifying) = &self.certifying {
            certifying.clear();
        }
        if !self.colours {
            return self.err.write(buf);
        }
        self.err.write_all(RED)?;
        let written = self.err.write(buf)?;
        self.err.write_all(PLAIN)?;
        Ok(written)
    }

    fn flush(&mut self) -> io::Result<()> {
        self.err.flush()
    }
}

impl<'a, H: Clock + Eprint> Errors for Console<'a, H> {
    fn point(&mut self, line: usize, column: usize, hint: &'static str) {
        self.place = Some(Place { line, column, hint });
    }

    fn explains(&self) -> bool {
        self.certifying.is_some()
    }

    fn verified_one(&mut self, done: u64) {
        if let Some(certifying) = &mut self.certifying {
            certifying.count_one(done);
        }
    }
}

/// A reader that keeps what it has read. It clears the progress from the screen before it reads, since a person may type
/// there.
#[derive(Drop)]
pub(crate) struct Kept<'a, R: Read> {
    rt: HostRuntime,
    inner: &'a mut R,
    text: Vec<u8>,
    // As that of `Telling`.
    shown: &'a AtomicU64,
}

impl<'a, R: Read> Kept<'a, R> {
    pub(crate) fn new(rt: HostRuntime, inner: &'a mut R, shown: &'a AtomicU64) -> Self {
        Kept {
            rt,
            inner,
            text: Vec::new(rt.alloc()),
            shown,
        }
    }

    /// Shows the line of a place, and what is wrong there.
    pub(crate) fn point(&self, place: Place) {
        point(&mut self.rt.stderr(), self.text.as_slice(), place);
    }
}

impl<'a, R: Read> Read for Kept<'a, R> {
    fn read(&mut self, buf: &mut [u8]) -> io::Result<usize> {
        clear(&self.rt, self.shown);
        let count = self.inner.read(buf)?;
        let read = buf.get(..count).unwrap_or(&[]);
        match self.text.extend_from_slice(read) {
            Ok(()) => Ok(count),
            Err(_) => Err(io::Error::from(io::ErrorKind::OutOfMemory)),
        }
    }
}
