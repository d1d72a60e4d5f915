/// How an instance ends after its body gave puts.
#[derive(Clone, Copy, Debug, PartialEq, Eq)]
pub enum End {
    /// It is done, and its puts are there.
    Done,
    /// One of its items is there already, or appears twice among its puts: the instance is at fault.
    DoublePut,
}
