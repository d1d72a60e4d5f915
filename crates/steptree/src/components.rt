ghost use Rattle.std.specs.Prelude.{◌≡◌, ◌≤◌, length, IfOk};
ghost use Rattle.terms.specs.declared.key.TheConstants.{MAX_COMPONENTS};

use crate::Expression;
use std::alloc::{AllocError, Global};
use std::marker::Model;
use terms::MAX_COMPONENTS;

/// The expressions of a key's components, 0 to `MAX_COMPONENTS` of them.
#[derive(Drop)]
pub struct Components {
    expressions: Vec<Expression>,
}

impl Model for Components {
    ghost use Rattle.std.specs.Prelude.{List, ◌≤◌, length};
    ghost use Rattle.std.specs.Coded.{coded_list, coded_ℕ};
    ghost use Rattle.terms.specs.declared.key.TheConstants.{MAX_COMPONENTS};
    ghost use Rattle.steptree.specs.Tree.{Expression};
    ghost use Rattle.steptree.specs.CodesOfExpressions.{expression_code};

    ghost Value = { List Expression };

    ghost coded = { coded_list (expression_code coded_ℕ) };

    ghost view = { λ c. c.expressions.items };

    ghost invariant = { λ c. length c.expressions.items ≤ MAX_COMPONENTS };
}

impl Components {
    /// These expressions, in order.
    pub fn new(expressions: Vec<Expression>) -> Self
        requires { length expressions.items ≤ MAX_COMPONENTS }
        ensures { result ≡ expressions.items }
    {
        Components { expressions }
    }

    /// The expressions, in order.
    pub fn as_slice(&self) -> &[Expression]
        ensures expressions { result.now ≡ self.now }
        ensures few { length result.now ≤ MAX_COMPONENTS }
    {
        &self.expressions
    }

    /// The same components in memory of their own.
    pub(crate) fn copied(&self, alloc: Global) -> Result<Self, AllocError>
        ensures { IfOk result (λ copy. copy ≡ self.now) }
    {
        let mut expressions = Vec::new(alloc);
        for expression in self.as_slice() {
            let copy = expression.copied(alloc)?;
            expressions.reserve(1)?;
            expressions.push_reserved(copy);
        }
        Ok(Components { expressions })
    }
}
