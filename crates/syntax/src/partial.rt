//! What the parser keeps of an expression while it reads it.
ghost use Rattle.std.specs.Prelude.{◌<◌, ◌∷◌, List, length, IfOk, IfErr, OnOk};
ghost use Rattle.syntax.specs.Grammar.{Position};
ghost use Rattle.syntax.specs.Tree.{multiplication_operator, addition_operator, comparison_operator};
ghost use Rattle.syntax.specs.Limits.{one_more, name_limits};
ghost use Rattle.syntax.specs.Expected.{broken_off as breaking, begun, negating, bracketing, passing, awaiting_product, awaiting_sum, awaiting_comparison};
ghost use Rattle.syntax.specs.Parsed.{left, TellsMove};
ghost use Rattle.syntax.specs.Whole.{EndsWithin, StopsAtEnd};
ghost use Rattle.syntax.specs.Partial.{IsPartial, WhereFresh, Becomes, EndsOperand, Awaits, ClosesBracket, Fewer};
ghost use Rattle.syntax.specs.Partial.{TakesOperand, StopsAtOperand, TakesJoint};

use crate::cursor::Cursor;
use crate::joints::{Head, Joint};
use crate::level::{Around, Level};
use crate::operand::{Operand, Pending, joined};
use crate::stop::Stop;
use crate::{MOST_BRACKETS, MOST_DEPTH, MOST_NAME_BYTES};
use std::alloc::{AllocError, Global};
use steptree::{Expression as Tree, Name, NamedExpression, Node, Operator};

/// An expression so far: the place of its first token, the place of the first limit that is passed within it, its
/// innermost level, and the levels around it, the outermost first.
pub(crate) struct Partial<'a> {
    pub(crate) first: usize,
    pub(crate) passed: Option<usize>,
    pub(crate) level: Level<'a>,
    pub(crate) outer: Vec<Around<'a>>,
}

impl<'a> Drop for Partial<'a> {
    // Written by hand, so that dropping an expression is one call everywhere.
    fn drop(self) {
        let Partial {
            first: _,
            passed: _,
            level: _,
            outer: _,
        } = self;
    }
}

/// How an expression goes on after an operand.
pub(crate) enum After<'a> {
    /// The next operand is expected.
    AwaitsOperand,
    /// A bracket was closed, and this is the product so far.
    HasProduct(Operand<'a>),
    /// The next token is not taken: the expression ends with this product, or breaks off if a bracket is open.
    Ends(Operand<'a>),
}

impl<'a> Partial<'a> {
    /// An expression before its first token, which is at `first`.
    pub(crate) fn begun(alloc: Global, may_compare: bool, first: usize) -> Partial<'a>
        ensures { WhereFresh may_compare (λ comparing. IsPartial (begun comparing first) result) }
    {
        Partial {
            first,
            passed: None,
            level: Level::opened(may_compare),
            outer: Vec::new(alloc),
        }
    }

    /// After a minus sign.
    fn negate(&mut self)
        ensures { (place : Position) → Becomes (λ state. negating state place) self.old self.new }
    {
        if self.level.negations <= MOST_DEPTH {
            self.level.negations += 1;
        }
    }

    /// Notes that a limit is passed at `place`, unless one was passed before.
    fn pass(&mut self, place: usize)
        ensures { (others : List Position) → Becomes (λ state. passing state (place ∷ others)) self.old self.new }
    {
        if self.passed.is_none() {
            self.passed = Some(place);
        }
    }

    /// Notes a limit at `place` if one more open bracket is too many.
    fn count(&mut self, place: usize)
        ensures { Becomes (λ state. passing state (one_more MOST_BRACKETS (length state.outer) place)) self.old self.new }
    {
        if self.outer.len() >= MOST_BRACKETS {
            self.pass(place);
        }
    }

    /// After an opening bracket.
    fn open(&mut self, alloc: Global, place: usize) -> Result<(), AllocError>
        ensures { OnOk result (Becomes (λ state. bracketing state place) self.old self.new) }
    {
        self.count(place);
        self.outer.reserve(1)?;
        let around = self.level.set_aside(alloc)?;
        self.outer.push_reserved(around);
        Ok(())
    }

    /// The product so far, after an operand.
    fn product(&mut self, alloc: Global, operand: Operand<'a>) -> Result<Operand<'a>, AllocError>
        ensures { IfOk result (EndsOperand self.old operand.entry self.new) }
    {
        // Most operands have no minus sign in front, and no operand waits for them.
        if self.level.negations == 0 && self.level.product.is_none() {
            return Ok(operand);
        }
        let operand = operand.negated(alloc, self.level.negations)?;
        self.level.negations = 0;
        joined(alloc, self.level.product.take(), operand)
    }

    /// Why the parser stops if the expression breaks off: the first limit passed within it, or else the next token.
    pub(crate) fn broken_off(&self) -> Stop
        ensures { TellsMove result (breaking self.now.passed) }
    {
        match self.passed {
            Some(place) => Stop::TooLarge(place),
            None => Stop::Syntax,
        }
    }

    /// Takes the next token, of an operand. If the operand ends with it, returns the product so far.
    pub(crate) fn begin(&mut self, cursor: &mut Cursor<'a>) -> Result<Option<Operand<'a>>, Stop>
        ensures follows { IfOk result (TakesOperand self.old self.new (left cursor.old) (left cursor.new)) }
        ensures fewer { OnOk result (length (left cursor.new) < length (left cursor.old)) }
        ensures stops { IfErr result (StopsAtOperand self.old (left cursor.old) (left cursor.new)) }
    {
        let place = cursor.place();
        let node = match Head::of(cursor.front()) {
            Head::Minus => {
                cursor.advance();
                self.negate();
                return Ok(None);
            }
            Head::OpenBracket => {
                cursor.advance();
                self.open(cursor.alloc, place)?;
                return Ok(None);
            }
            Head::Number(value) => {
                cursor.advance();
                Node::Number(value)
            }
            Head::Variable(text) => {
                cursor.advance();
                self.pass_name(text, place);
                Node::Variable(Name { text, place })
            }
            Head::Other => return Err(self.broken_off()),
        };
        let tree = Tree { node };
        let product = self.product(cursor.alloc, Operand::Kept { tree, depth: 1 })?;
        Ok(Some(product))
    }

    // Notes a limit at `place` if this name of the expression is too long.
    fn pass_name(&mut self, text: &str, place: usize)
        ensures { Becomes (λ state. passing state (name_limits (text.now, place))) self.old self.new }
    {
        if text.len() > MOST_NAME_BYTES {
            self.pass(place);
        }
    }

    /// After the sign of a product.
    fn await_product(&mut self, product: Operand<'a>, operator: Operator)
        ensures { Awaits multiplication_operator awaiting_product operator self.old product.entry self.new }
    {
        self.level.product = Some(Pending {
            left: product,
            operator,
        });
    }

    /// After the sign of a sum.
    fn await_sum(
        &mut self,
        alloc: Global,
        product: Operand<'a>,
        operator: Operator,
    ) -> Result<(), AllocError>
        ensures { OnOk result (Awaits addition_operator awaiting_sum operator self.old product.entry self.new) }
    {
        let left = joined(alloc, self.level.sum.take(), product)?;
        self.level.sum = Some(Pending { left, operator });
        Ok(())
    }

    /// After the sign of a comparison.
    fn await_comparison(
        &mut self,
        alloc: Global,
        product: Operand<'a>,
        operator: Operator,
    ) -> Result<(), AllocError>
        ensures { OnOk result (Awaits comparison_operator awaiting_comparison operator self.old product.entry self.new) }
    {
        let left = joined(alloc, self.level.sum.take(), product)?;
        self.level.may_compare = false;
        self.level.comparison = Some(Pending { left, operator });
        Ok(())
    }

    /// After the bracket that closes the innermost level; `around` is the level around that one.
    fn close(
        &mut self,
        alloc: Global,
        product: Operand<'a>,
        around: Around<'a>,
    ) -> Result<Operand<'a>, AllocError>
        ensures { IfOk result (ClosesBracket self.old around.entry product.entry self.new) }
    {
        let expression = self.level.whole(alloc, product)?;
        around.put_back(&mut self.level);
        self.product(alloc, expression)
    }

    /// Takes the next token, after an operand that ends `product`, unless the expression ends or breaks off there.
    pub(crate) fn go_on(
        &mut self,
        cursor: &mut Cursor<'a>,
        product: Operand<'a>,
    ) -> Result<After<'a>, AllocError>
        ensures goes_on { IfOk result (TakesJoint self.old product.entry self.new (left cursor.old) (left cursor.new)) }
        ensures fewer { IfOk result (λ after. Fewer after (length (left cursor.old)) (length (left cursor.new))) }
    {
        match Joint::of(cursor.front()) {
            Joint::Product(operator) => self.await_product(product, operator),
            Joint::Sum(operator) => self.await_sum(cursor.alloc, product, operator)?,
            Joint::Comparison(operator) => {
                if !self.level.may_compare {
                    return Ok(After::Ends(product));
                }
                self.await_comparison(cursor.alloc, product, operator)?;
            }
            Joint::Closes => {
                let Some(around) = self.outer.pop() else {
                    return Ok(After::Ends(product));
                };
                cursor.advance();
                let product = self.close(cursor.alloc, product, around)?;
                return Ok(After::HasProduct(product));
            }
            Joint::Ends => return Ok(After::Ends(product)),
        }
        cursor.advance();
        Ok(After::AwaitsOperand)
    }

    /// The tree of the expression that ends with `product`. Within the outer result, fails if a bracket is open, if the tree
    /// is too deep, or if a limit was passed within the expression.
    pub(crate) fn finish(
        mut self,
        alloc: Global,
        product: Operand<'a>,
    ) -> Result<Result<NamedExpression<'a>, Stop>, AllocError>
        ensures within { IfOk result (λ found. IfOk found (EndsWithin self.entry product.entry)) }
        ensures stops { IfOk result (λ found. IfErr found (StopsAtEnd self.entry product.entry)) }
    {
        if !self.outer.is_empty() {
            return Ok(Err(self.broken_off()));
        }
        let expression = self.level.whole(alloc, product)?;
        let Some((tree, _)) = expression.kept() else {
            return Ok(Err(Stop::TooLarge(self.first)));
        };
        match self.passed {
            Some(place) => Ok(Err(Stop::TooLarge(place))),
            None => Ok(Ok(tree)),
        }
    }
}
