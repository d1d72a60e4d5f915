use terms::{Addr, Puts};

/// What a try to replay an instance came to.
#[derive(Drop)]
pub(crate) enum Tried {
    /// It was replayed, with these puts.
    Replayed(Puts),
    /// Its body waits for this item, which was not replayed so far.
    Waits(Addr),
    /// It was replayed before, or it cannot be: its tag was not replayed so far, its body is at fault, or the store lacks what the body puts.
    AsBefore,
}
