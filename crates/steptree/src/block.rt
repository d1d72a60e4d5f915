ghost use Rattle.std.specs.Prelude.{◌≡◌};
ghost use Rattle.steptree.specs.Tree.{End};

use crate::{Expression, Simple, Slot};
use std::alloc::Global;
use std::marker::Model;

/// The statements of a block, one after another. Clauses see it as its tree.
///
/// A variable is a `V`, and a statement without blocks an `S`.
#[cycle(block)]
pub struct Block<V = Slot, S = Simple> {
    pub statements: Vec<Statement<V, S>>,
}

/// A statement, with the blocks inside it.
#[cycle(block)]
pub enum Statement<V = Slot, S = Simple> {
    /// A statement without blocks inside it.
    Simple(S),
    /// Runs the first block if the condition is not 0, else the second.
    If {
        condition: Expression<V>,
        first: Block<V, S>,
        second: Block<V, S>,
    },
    /// Runs the block once for each value of the variable, from `from` up to but not including `to`.
    For {
        variable: V,
        from: Expression<V>,
        to: Expression<V>,
        block: Block<V, S>,
    },
}

impl<V, S> Model for Block<V, S> {
    ghost use Rattle.steptree.specs.Tree.{BlockTree, block_size};
    ghost use Rattle.steptree.specs.CodesOfBlocks.{block_code};

    ghost Value = { BlockTree V S };

    ghost coded = { block_code V.code S.code };

    ghost use Rattle.steptree.specs.SeenBlocks.{block_seen};

    ghost view = { λ b. block_seen b.statements.items };

    ghost size = { block_size };

    ghost use Rattle.std.proofs.Common.{arith};
    ghost use Rattle.steptree.specs.BlocksFall.{falls};

    ghost size_decreases = { λ a h. omega (arith, falls a.statements.items) };
}

impl<V, S> Block<V, S> {
    /// The block without a statement.
    pub fn end(alloc: Global) -> Self
        ensures { result ≡ End }
    {
        Block {
            statements: Vec::new(alloc),
        }
    }
}

impl<V: Drop, S: Drop> Drop for Block<V, S> {
    // Written by hand, so that dropping a block is one call everywhere.
    #[cycle(drops)]
    fn drop(self) {
        let Block { statements: _ } = self;
    }
}

impl<V: Drop, S: Drop> Drop for Statement<V, S> {
    // Written by hand, so that dropping a statement is one call everywhere.
    #[cycle(drops)]
    fn drop(self) {
        match self {
            Statement::Simple(_) => {}
            Statement::If {
                condition: _,
                first: _,
                second: _,
            } => {}
            Statement::For {
                variable: _,
                from: _,
                to: _,
                block: _,
            } => {}
        }
    }
}
