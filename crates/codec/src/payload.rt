//! What a record's payload may be beside the bytes of one event.

/// The kind of a payload that is a group of events. No event has this kind.
pub(crate) const GROUP: u8 = 5;

/// The most events of one commit.
pub const MOST_EVENTS: usize = 64;
