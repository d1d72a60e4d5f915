ghost use Rattle.std.specs.Prelude.{◌≡◌, ◌≤◌, ◌<◌, ◌+◌, ◌^◌, length, take};
ghost use Rattle.graph.specs.Reads.{walked};

/// The line and the column, both from 1, of the byte at a position, or after the last byte. Only a line feed begins a line.
pub(crate) fn place(text: &[u8], position: usize) -> (usize, usize)
    ensures { walked 1 1 (take position text.now) ≡ result }
{
    let mut line = 1;
    let mut column = 1;
    for byte in &text[..position.min(text.len())] {
        if *byte == 10 {
            line += 1;
            column = 1;
        } else {
            column += 1;
        }
    }
    (line, column)
}
