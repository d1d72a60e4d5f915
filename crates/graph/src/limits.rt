/// The greatest number of bytes of a graph text, and of its canonical text.
pub const MOST_TEXT: usize = 65_536;
