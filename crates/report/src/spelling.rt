/// How the line of an item is spelled.
#[derive(Clone, Copy)]
pub(crate) enum Spelling {
    /// `[c: k, ..] = v`.
    Plain,
    /// As a row of a table with this number of key columns.
    Row(usize),
    /// As a JSON object.
    Object,
}
