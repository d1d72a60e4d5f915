//! What a script is read from.
ghost use Rattle.std.specs.Prelude.{◌≡◌, IfOk};
ghost use Rattle.std.specs.IoError.{error_kind};
ghost use Rattle.session.specs.Errors.{error_of_reader};
ghost use Rattle.session.specs.Streams.{IsTaken};

use std::alloc::Global;
use std::io::{self, ErrorKind, Read};
use thiserror::Error;

/// Why a source was not read.
#[derive(Clone, Copy, Debug, PartialEq, Eq, Error)]
pub enum SourceError {
    /// The source returned an error.
    #[error("cannot read")]
    Failed,
    /// Memory was refused.
    #[error("no memory")]
    NoMemory,
}

/// What a script is read from. It tells whether it has failed.
pub trait Source {
    ghost use Rattle.std.specs.Prelude.{Bool, List, Option, ℕ, IfOk};
    ghost use Rattle.session.specs.Streams.{IsTaken, TellsReading};

    /// The bytes that it has left, where they are known.
    ghost remaining: { Self → Option (List ℕ) };

    /// Whether it has returned an error so far. That memory was refused is none.
    ghost has_failed: { Self → Bool };

    /// Reads to its end, or this many bytes if it has more.
    fn read_up_to(&mut self, alloc: Global, most: u64) -> Result<Vec<u8>, SourceError>
        ensures read { IfOk result (λ text. IsTaken (remaining self.old) most text.items) }
        ensures fails { TellsReading has_failed self.old self.new result };
}

/// A reader as a source.
#[derive(Drop)]
pub struct ReaderSource<'a, R> {
    /// The reader.
    pub input: &'a mut R,
    /// Whether the reader has returned an error.
    pub failed: bool,
}

impl<'a, R: Read> Source for ReaderSource<'a, R> {
    ghost remaining = { λ source. R.remaining source.input.now };

    ghost has_failed = { λ source. source.failed };

    fn read_up_to(&mut self, alloc: Global, most: u64) -> Result<Vec<u8>, SourceError> {
        match taken(alloc, self.input, most) {
            Ok(text) => Ok(text),
            Err(SourceError::Failed) => {
                self.failed = true;
                Err(SourceError::Failed)
            }
            Err(SourceError::NoMemory) => Err(SourceError::NoMemory),
        }
    }
}

// What a reader gives, up to this many bytes.
fn taken<R: Read>(alloc: Global, input: &mut R, most: u64) -> Result<Vec<u8>, SourceError>
    ensures { IfOk result (λ text. IsTaken (R.remaining input.old) most text.items) }
{
    let mut text = Vec::new(alloc);
    match input.take(most).read_to_end(&mut text) {
        Ok(_) => Ok(text),
        Err(error) => Err(SourceError::of_reader(error)),
    }
}

impl SourceError {
    // Why a reader was not read.
    fn of_reader(error: io::Error) -> Self
        ensures { result ≡ error_of_reader (error_kind error) }
    {
        match error.kind() {
            ErrorKind::OutOfMemory => SourceError::NoMemory,
            _ => SourceError::Failed,
        }
    }
}
