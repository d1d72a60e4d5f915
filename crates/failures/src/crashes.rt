//! What crashes leave.
use disk::Choice;

/// What a crash makes of the bytes that were touched, and how that is called.
pub(crate) const CHOICES: [(Choice, &str); 5] = [
    (Choice::Synced, "as synced"),
    (Choice::Written, "as written"),
    (Choice::Byte(0), "as 0"),
    (Choice::Byte(1), "as 1"),
    (Choice::Byte(255), "as 255"),
];
