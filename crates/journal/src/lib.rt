//! A journal of records behind gates, which may begin at any position of a file.
//!
//! A record is a gate byte, the payload's length as a little-endian u32, and the payload. A gate that is 1 is open; any
//! other byte is a closed gate. The journal ends at a closed gate; anything may be behind it.
//! The layer above uses `Journal::append_all`: a crash leaves the payloads before the call, or these and all that it adds, and once `Ok` is
//! returned it leaves all of them.
#![tactic(auto)]

mod error;
mod journal;
mod law;
mod payloads;
mod records;
mod scan;

pub use error::{AppendError, JournalError};
pub use journal::{Journal, LIMIT};
pub use law::{one_meaning, records_lead};
pub use payloads::Payloads;
pub use records::{begin_record, begins_closed, end_record, first_payload, record_length};
