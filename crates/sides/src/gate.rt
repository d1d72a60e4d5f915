ghost use Rattle.sides.specs.Reading.{Tells};

use byteorder::{ByteOrder, LittleEndian};

/// The number of bytes at the front of a side that say whether it is open, and of which generation: its gate, its format and
/// eight bytes of the generation.
pub const HEAD: usize = 10;

/// The byte of the one format that is known.
pub const FORMAT: u8 = 1;

/// The gate of a side that is open. Every other byte is a closed gate.
pub const OPEN: u8 = 1;

/// What the head of a file says of its side.
#[derive(Clone, Copy, Debug, PartialEq, Eq)]
pub enum Gate {
    /// It is closed, or the file is empty.
    Closed,
    /// It is open, but the file ends before the end of its generation.
    Short,
    /// It is open, of this generation.
    Open(u64),
}

/// What the first `HEAD` bytes of a file say of its side, or all its bytes where it has fewer.
pub fn gate_of(head: &[u8]) -> Gate
    ensures { Tells result head.now }
{
    if head.is_empty() || head[0] != OPEN {
        return Gate::Closed;
    }
    if head.len() < HEAD {
        return Gate::Short;
    }
    Gate::Open(LittleEndian::read_u64(&head[2..]))
}
