use terms::Addr;

/// The state of a prescribed instance.
#[derive(Clone, Copy, Debug, PartialEq, Eq)]
pub enum State {
    /// It can be claimed.
    Ready,
    /// It was claimed, and since then was not ended, parked or given back.
    Running,
    /// It waits for the item at the address.
    Waiting(Addr),
    /// It is done.
    Done,
}
