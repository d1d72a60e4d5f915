use crate::Block;

/// The greatest number of statements and turns of loops of one instance.
pub const BUDGET: u32 = 1_000_000;

/// The body of a step: its read block, and after it its write block.
///
/// It is up to the grammar of its text that gets are only in the read block, and puts only in the write block.
#[derive(Drop)]
pub struct Body {
    pub read: Block,
    pub write: Block,
}
