/// A token of a line.
#[derive(Clone, Copy)]
pub(crate) enum Token<'a> {
    /// Letters and digits, the first of them a letter.
    Word(&'a str),
    /// A whole number of any size, as it is written.
    Number(&'a str),
    /// One of `[ ] < > : , =`.
    Sign(u8),
    /// Anything that begins no token. It is the last token, whatever follows it.
    Unknown,
}
