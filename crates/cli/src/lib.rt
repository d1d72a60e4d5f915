//! The program `cnc` as a library: it reads the words of a command, and does the command on a disk.
//!
//! A command makes a store of a graph, runs a script on one, writes its report, turns it over, or draws a graph or a
//! store (`Obeys`). The program stands on `read_words`, which returns the command that the words ask for, and on `obey`,
//! which does it, writes the output and the error message, and returns the status.
#![tactic(auto)]

mod hints;
mod log_lines;
mod logging;
mod obeying;
mod outcome;
mod past;
mod verifying;
mod words;

pub use hints::LIMIT_PASSED;
pub use obeying::{Errors, obey};
pub use outcome::{Failure, Left, Outcome};
pub use words::{Command, MOST_LIMIT, collect_words, read_words, usage_status};
