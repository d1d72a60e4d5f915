/// The greatest number of bytes of a name.
pub const MOST_NAME_BYTES: usize = 32;

/// The greatest depth of an expression. A number or a name has the depth 1.
pub const MOST_DEPTH: usize = 64;

/// The greatest number of round brackets that are open at once in an expression. A canonical text has brackets around each
/// operation, so it can be read back only if this is at least `MOST_DEPTH` - 1.
pub const MOST_BRACKETS: usize = 64;

/// The greatest number of braces that are open at once within a read or a write block.
pub const MOST_BRACES: usize = 16;
