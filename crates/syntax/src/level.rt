//! The levels of an expression that is read: the innermost one, and those around it.
ghost use Rattle.std.specs.Prelude.{◌≡◌, ◌≢◌, IfOk, OnOk, MatchBool};
ghost use Rattle.syntax.specs.Around.{bare};
ghost use Rattle.syntax.specs.Expected.{possible, opened};
ghost use Rattle.syntax.specs.Partial.{IsLevel, WhereFresh, EndsLevel};

use crate::operand::{Operand, Pending, joined};
use std::alloc::{AllocError, Global};
use std::marker::Model;
use std::mem;

/// What waits within one bracket, or outside all brackets: the left operands of a comparison, a sum and a product, and how
/// many minus signs stand before the operand.
pub(crate) struct Level<'a> {
    pub(crate) may_compare: bool,
    pub(crate) comparison: Option<Pending<'a>>,
    pub(crate) sum: Option<Pending<'a>>,
    pub(crate) product: Option<Pending<'a>>,
    pub(crate) negations: usize,
}

impl<'a> Drop for Level<'a> {
    // Written by hand, so that dropping a level is one call everywhere.
    fn drop(self) {
        let Level {
            may_compare: _,
            comparison: _,
            sum: _,
            product: _,
            negations: _,
        } = self;
    }
}

/// A level around the innermost one. Clauses see it as that level.
pub(crate) struct Around<'a> {
    kept: Kept<'a>,
}

// How a level around the innermost one is kept: only where an operand waits in it, it takes memory of its own.
#[derive(Drop)]
enum Kept<'a> {
    Bare { may_compare: bool, negations: usize },
    Whole(Box<Level<'a>>),
}

impl<'a> Model for Around<'a> {
    ghost use Rattle.std.specs.Coded.{codes};
    ghost use Rattle.steptree.specs.CodesOfExpressions.{expression_code};
    ghost use Rattle.syntax.specs.declared.level.Level.{Level};
    ghost use Rattle.syntax.specs.Around.{level_kept};

    ghost Value = { Level };

    ghost coded = { Prim.hlevel (codes, expression_code) };

    ghost view = { λ around. level_kept around.kept };
}

impl<'a> Drop for Around<'a> {
    // Written by hand, so that dropping a level is one call everywhere.
    fn drop(self) {
        let Around { kept: _ } = self;
    }
}

impl<'a> Around<'a> {
    /// Puts this level back in the place of the one inside it, which ended.
    pub(crate) fn put_back(self, level: &mut Level<'a>)
        ensures { level.new ≡ self.entry }
    {
        let Around { kept } = self;
        match kept {
            Kept::Whole(whole) => *level = Box::into_inner(whole),
            Kept::Bare {
                may_compare,
                negations,
            } => {
                // Never: nothing waits in a level that ended. So three fields stay as they are.
                if level.waits() {
                    *level = Level::opened(true);
                }
                level.may_compare = may_compare;
                level.negations = negations;
            }
        }
    }
}

impl<'a> Level<'a> {
    /// A level before its first operand.
    pub(crate) fn opened(may_compare: bool) -> Level<'a>
        ensures opened { WhereFresh may_compare (λ comparing. IsLevel (opened comparing) result) }
        ensures bare { result ≡ bare may_compare 0 }
    {
        Level {
            may_compare,
            comparison: None,
            sum: None,
            product: None,
            negations: 0,
        }
    }

    /// Whether an operand waits in this level.
    fn waits(&self) -> bool
        ensures { MatchBool result (self.now ≢ bare self.now.may_compare self.now.negations) (self.now ≡ bare self.now.may_compare self.now.negations) }
    {
        self.product.is_some() || self.sum.is_some() || self.comparison.is_some()
    }

    /// Takes this level out, as one around the next. A level before its first operand takes its place.
    pub(crate) fn set_aside(&mut self, alloc: Global) -> Result<Around<'a>, AllocError>
        ensures around { IfOk result (λ around. around ≡ self.old) }
        ensures opened { OnOk result (IsLevel (opened possible) self.new) }
    {
        if self.waits() {
            let mut whole = Box::new(alloc, Level::opened(true))?;
            mem::swap(self, &mut whole);
            return Ok(Around {
                kept: Kept::Whole(whole),
            });
        }
        let kept = Kept::Bare {
            may_compare: self.may_compare,
            negations: self.negations,
        };
        self.may_compare = true;
        self.negations = 0;
        Ok(Around { kept })
    }

    /// The expression of this level, which ends with `product`.
    pub(crate) fn whole(
        &mut self,
        alloc: Global,
        product: Operand<'a>,
    ) -> Result<Operand<'a>, AllocError>
        ensures { IfOk result (EndsLevel self.old product.entry) }
    {
        // In most levels no operand waits.
        if self.sum.is_none() && self.comparison.is_none() {
            return Ok(product);
        }
        let sum = joined(alloc, self.sum.take(), product)?;
        joined(alloc, self.comparison.take(), sum)
    }
}
