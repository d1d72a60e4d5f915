//! Sessions: a script is read and run line by line on a store, with a reply to each line; then comes the report.
//!
//! Each line of the script takes the store from one state to the next, and has a reply (`IsSession`). The layer above
//! stands on `session`, and on `session_alone`, which needs no threads.
#![tactic(auto)]

mod answers;
mod closing;
mod commands;
mod ending;
mod error;
mod laws;
mod progress;
mod reply;
mod rows;
mod sessions;
mod source;
mod waiting;

pub use ending::{Ending, Stop};
pub use error::SessionError;
pub use laws::texts_are_one;
pub use sessions::{session, session_alone};
pub use source::{ReaderSource, Source, SourceError};
