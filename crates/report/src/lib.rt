//! Reports: what a store holds, as a text that its graph and its facts alone determine.
//!
//! `IsReport` is that text, `IsTable` and `AreObjects` are its other formats, and the laws `reports_once` and
//! `formats_once` say that there is at most one of each. The layers above stand on `write_report_in` and
//! `send_report`, which write it to a writer or to a `Sink`, and on `NamedAddress`, `NamedTag` and `NamedInstance`, which spell
//! names as it does.
#![tactic(auto)]

mod components;
mod error;
mod format;
mod got;
mod item_lines;
mod law;
mod named;
mod objects;
mod report;
mod sink;
mod spelling;
mod table;

pub use error::ReportError;
pub use format::Format;
pub use law::{formats_once, keys_have_columns, reports_once};
pub use named::{NamedAddress, NamedInstance, NamedTag};
pub use report::{send_report, send_report_in, write_report, write_report_in};
pub use sink::{Sink, SinkFailed, WriterSink};
