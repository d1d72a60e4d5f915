//! Operands of expressions, and what operators make of them.
ghost use Rattle.std.specs.Prelude.{◌≡◌, MatchOption, IfOk};
ghost use Rattle.syntax.specs.declared.operand.Operand.TheVariants.{Kept, TooDeep};
ghost use Rattle.syntax.specs.Partial.{Negates, NegatesTree, MakesProduct, MakesSum, MakesComparison, JoinsProduct, JoinsSum, JoinsComparison};

use crate::MOST_DEPTH;
use std::alloc::{AllocError, Global};
use steptree::{Expression, NamedExpression, Node, Operator};

/// An operand: its tree and its depth, or that it is too deep.
pub(crate) enum Operand<'a> {
    Kept {
        tree: NamedExpression<'a>,
        depth: usize,
    },
    TooDeep,
}

impl<'a> Drop for Operand<'a> {
    // Written by hand, so that dropping an operand is one call everywhere.
    fn drop(self) {
        match self {
            Operand::Kept { tree: _, depth: _ } => {}
            Operand::TooDeep => {}
        }
    }
}

/// A left operand and its operator, which wait for the right operand.
pub(crate) struct Pending<'a> {
    pub(crate) left: Operand<'a>,
    pub(crate) operator: Operator,
}

impl<'a> Drop for Pending<'a> {
    // Written by hand, so that dropping what waits is one call everywhere.
    fn drop(self) {
        let Pending {
            left: _,
            operator: _,
        } = self;
    }
}

impl<'a> Operand<'a> {
    /// This operand with `times` minus signs before it.
    pub(crate) fn negated(self, alloc: Global, times: usize) -> Result<Operand<'a>, AllocError>
        ensures { IfOk result (Negates times self.entry) }
    {
        match self {
            Operand::Kept { tree, depth } => {
                if times > MOST_DEPTH.saturating_sub(depth) {
                    return Ok(Operand::TooDeep);
                }
                let tree = negation(alloc, tree, times)?;
                let depth = depth + times;
                Ok(Operand::Kept { tree, depth })
            }
            Operand::TooDeep => Ok(Operand::TooDeep),
        }
    }

    /// The tree and the depth, unless the operand is too deep.
    pub(crate) fn kept(self) -> Option<(NamedExpression<'a>, usize)>
        ensures { MatchOption result (self.entry ≡ TooDeep) (λ kept. self.entry ≡ Kept kept.0 kept.1) }
    {
        match self {
            Operand::Kept { tree, depth } => Some((tree, depth)),
            Operand::TooDeep => None,
        }
    }
}

// An expression with `times` minus signs before it.
fn negation<'a>(
    alloc: Global,
    tree: NamedExpression<'a>,
    times: usize,
) -> Result<NamedExpression<'a>, AllocError>
    ensures { IfOk result (NegatesTree times tree.entry) }
{
    if times == 0 {
        return Ok(tree);
    }
    let node = Node::Negation(Box::new(alloc, tree)?);
    let tree = Expression { node };
    negation(alloc, tree, times - 1)
}

impl<'a> Pending<'a> {
    /// The operation on the left operand that waits and on `right`.
    pub(crate) fn with(self, alloc: Global, right: Operand<'a>) -> Result<Operand<'a>, AllocError>
        ensures products { IfOk result (MakesProduct self.entry right.entry) }
        ensures sums { IfOk result (MakesSum self.entry right.entry) }
        ensures comparisons { IfOk result (MakesComparison self.entry right.entry) }
    {
        let Pending { left, operator } = self;
        let Some((one, depth)) = left.kept() else {
            return Ok(Operand::TooDeep);
        };
        let Some((two, other)) = right.kept() else {
            return Ok(Operand::TooDeep);
        };
        if depth >= MOST_DEPTH || other >= MOST_DEPTH {
            return Ok(Operand::TooDeep);
        }
        let operands = Box::new(alloc, (one, two))?;
        let node = Node::Operation(operator, operands);
        let tree = Expression { node };
        let depth = depth.max(other) + 1;
        Ok(Operand::Kept { tree, depth })
    }
}

/// The operation on the operand that waits, if one does, and on `right`; without one, `right` alone.
pub(crate) fn joined<'a>(
    alloc: Global,
    waiting: Option<Pending<'a>>,
    right: Operand<'a>,
) -> Result<Operand<'a>, AllocError>
    ensures products { IfOk result (JoinsProduct waiting.entry right.entry) }
    ensures sums { IfOk result (JoinsSum waiting.entry right.entry) }
    ensures comparisons { IfOk result (JoinsComparison waiting.entry right.entry) }
{
    match waiting {
        Some(pending) => pending.with(alloc, right),
        None => Ok(right),
    }
}
