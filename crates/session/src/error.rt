ghost use Rattle.std.specs.Prelude.{◌≡◌};
ghost use Rattle.session.specs.Errors.{error_of_report, error_of_script, error_of_source};

use crate::SourceError;
use report::ReportError;
use script::{ScriptError, ScriptFault};
use thiserror::Error;

/// Why a session did not come to its end.
#[derive(Clone, Copy, Debug, PartialEq, Eq, Error)]
pub enum SessionError {
    /// The source returned an error. Nothing was committed.
    #[error("cannot read the script")]
    Read,
    /// The sink returned an error. What was committed stays. It is not known how much was written.
    #[error("cannot write the replies")]
    Write,
    /// The line with this number, counted from 1, is the first at fault. Nothing was committed.
    #[error("line {0} of the script is at fault")]
    Script(usize, ScriptFault),
    /// Memory was refused, for the script, of which nothing was done then; or for the report, of which nothing was written.
    #[error("no memory")]
    NoMemory,
}

impl SessionError {
    // Why a script was not read.
    pub(crate) fn of_source(error: SourceError) -> Self
        ensures { result ≡ error_of_source error }
    {
        match error {
            SourceError::Failed => SessionError::Read,
            SourceError::NoMemory => SessionError::NoMemory,
        }
    }

    // Why a text is not a script.
    pub(crate) fn of_script(error: ScriptError) -> Self
        ensures { result ≡ error_of_script error }
    {
        match error {
            ScriptError::At(line, fault) => SessionError::Script(line, fault),
            ScriptError::NoMemory => SessionError::NoMemory,
        }
    }

    // Why the whole report was not written.
    pub(crate) fn of_report(error: ReportError) -> Self
        ensures { result ≡ error_of_report error }
    {
        match error {
            ReportError::Write => SessionError::Write,
            ReportError::NoMemory => SessionError::NoMemory,
        }
    }
}
