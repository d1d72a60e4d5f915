/// How a report is written.
#[derive(Clone, Copy, Debug, PartialEq, Eq)]
pub enum Format {
    /// As lines for people.
    Text,
    /// The items alone, as a table of comma-separated values.
    Csv,
    /// As JSON, one object a line.
    Json,
}
