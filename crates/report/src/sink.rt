//! What a report and replies are written to.
use std::fmt::Display;
use std::io::Write;
use thiserror::Error;

/// The sink returned an error. It is not known how much it wrote.
#[derive(Clone, Copy, Debug, PartialEq, Eq, Error)]
#[error("cannot write")]
pub struct SinkFailed;

/// What text is written to. It tells whether it has failed. It may hold back what `write_fmt` wrote; `send` holds nothing back.
pub trait Sink {
    ghost use Rattle.std.specs.Prelude.{Bool, List, Option, ℕ, IfSome, OnOk};
    ghost use Rattle.std.specs.Borrow.{GName};
    ghost use Rattle.std.specs.Io.KnownBytes.{Appends};
    ghost use Rattle.report.specs.Sinks.{TellsFailure};

    /// The bytes that it holds, where they are known.
    ghost contents: { Self → Option (List ℕ) };

    /// Whether it has returned an error so far.
    ghost has_failed: { Self → Bool };

    /// The name, in proofs, of what it writes to.
    ghost target: { Self → GName };

    /// Writes a text.
    fn write_fmt<T: Display>(&mut self, text: T) -> Result<(), SinkFailed>
    where
        Self: Sized,
        T: Drop,
        ensures written { OnOk result (IfSome (T.output text) (Appends (contents self.old) (contents self.new))) }
        ensures fails { TellsFailure target has_failed self.old self.new result };

    /// Writes a text, and all that was held back before it.
    fn send<T: Display>(&mut self, text: T) -> Result<(), SinkFailed>
    where
        Self: Sized,
        T: Drop,
        ensures written { OnOk result (IfSome (T.output text) (Appends (contents self.old) (contents self.new))) }
        ensures fails { TellsFailure target has_failed self.old self.new result };
}

/// A writer as a sink.
#[derive(Drop)]
pub struct WriterSink<'a, W> {
    /// The writer.
    pub out: &'a mut W,
    /// Whether the writer has returned an error.
    pub failed: bool,
}

impl<'a, W: Write> Sink for WriterSink<'a, W> {
    ghost contents = { λ sink. W.contents sink.out.now };

    ghost has_failed = { λ sink. sink.failed };

    ghost target = { λ sink. sink.out.ghost_name };

    fn write_fmt<T: Display>(&mut self, text: T) -> Result<(), SinkFailed>
    where
        T: Drop,
    {
        match self.out.write_fmt(text) {
            Ok(()) => Ok(()),
            Err(_) => {
                self.failed = true;
                Err(SinkFailed)
            }
        }
    }

    fn send<T: Display>(&mut self, text: T) -> Result<(), SinkFailed>
    where
        T: Drop,
    {
        self.write_fmt(text)?;
        match self.out.flush() {
            Ok(()) => Ok(()),
            Err(_) => {
                self.failed = true;
                Err(SinkFailed)
            }
        }
    }
}
