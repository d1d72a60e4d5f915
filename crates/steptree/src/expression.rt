ghost use Rattle.std.specs.Prelude.{◌≡◌, IfOk};

use crate::Slot;
use std::alloc::{AllocError, Global};
use std::marker::Model;

/// The operator between two operands.
#[derive(Clone, Copy, Debug, PartialEq, Eq)]
pub enum Operator {
    Add,
    Subtract,
    Multiply,
    Divide,
    Remainder,
    Equal,
    NotEqual,
    Less,
    LessOrEqual,
    Greater,
    GreaterOrEqual,
}

/// An expression over the values of the variables, each a `V`. Clauses see it as its tree.
#[cycle(expression)]
pub struct Expression<V = Slot> {
    pub node: Node<V>,
}

/// The kind of an expression, with its operands.
#[cycle(expression)]
#[derive(Drop)]
pub enum Node<V = Slot> {
    Number(i64),
    Variable(V),
    Negation(Box<Expression<V>>),
    Operation(Operator, Box<(Expression<V>, Expression<V>)>),
}

impl<V> Model for Expression<V> {
    ghost use Rattle.steptree.specs.Tree.{ExpressionTree, expression_size};
    ghost use Rattle.steptree.specs.CodesOfExpressions.{expression_code};

    ghost Value = { ExpressionTree V };

    ghost coded = { expression_code V.code };

    ghost use Rattle.steptree.specs.SeenExpressions.{expression_seen};

    ghost view = { λ e. expression_seen e.node };

    ghost size = { expression_size };

    ghost use Rattle.std.proofs.Common.{arith};

    ghost size_decreases = { λ a h. Prim.grind (arith) };
}

impl Expression {
    /// The same expression in memory of its own.
    pub(crate) fn copied(&self, alloc: Global) -> Result<Self, AllocError>
        ensures { IfOk result (λ copy. copy ≡ self.now) }
    {
        let node = match &self.node {
            Node::Number(number) => Node::Number(*number),
            Node::Variable(slot) => Node::Variable(*slot),
            Node::Negation(operand) => {
                let operand = operand.copied(alloc)?;
                Node::Negation(Box::new(alloc, operand)?)
            }
            Node::Operation(operator, operands) => {
                let left = operands.0.copied(alloc)?;
                let right = operands.1.copied(alloc)?;
                Node::Operation(*operator, Box::new(alloc, (left, right))?)
            }
        };
        Ok(Expression { node })
    }
}

impl<V: Drop> Drop for Expression<V> {
    // Written by hand, so that dropping an expression is one call everywhere.
    fn drop(self) {
        let Expression { node: _ } = self;
    }
}
