ghost use Rattle.std.specs.Prelude.{◌≡◌, ◌≤◌, length, IfOk};
ghost use Rattle.terms.specs.declared.key.TheConstants.{MAX_COMPONENTS};
ghost use Rattle.steptree.specs.declared.slot.TheConstants.{MOST_NAMES};
ghost use Rattle.steptree.specs.CheckFaults.{expression_faults, component_faults};
ghost use Rattle.steptree.specs.Limits.{AreFew};
ghost use Rattle.steptree.specs.Resolved.{IsExpression, AreExpressions, ResolvesKey};
ghost use Rattle.steptree.specs.Sheet.{IsAllowed};
ghost use Rattle.steptree.specs.Statements.{texts, Reports, ReportsKey};

use super::names::{number, slot};
use crate::{
    CheckError, CheckFault, Components, Declared, Expression, Name, NamedExpression, Node,
};
use std::alloc::Global;

/// Resolves an expression: each variable becomes its slot.
pub(crate) fn resolve_expression(
    alloc: Global,
    names: &[Name<'_>],
    expression: &NamedExpression<'_>,
) -> Result<Expression, CheckFault>
    requires { length names.now ≤ MOST_NAMES }
    ensures resolves { IfOk result (IsExpression (texts names.now) expression.now) }
    ensures faults { Reports (expression_faults (texts names.now) expression.now) result }
{
    match &expression.node {
        Node::Number(number) => Ok(Expression {
            node: Node::Number(*number),
        }),
        Node::Variable(name) => Ok(Expression {
            node: Node::Variable(slot(names, name)?),
        }),
        Node::Negation(operand) => {
            let operand = resolve_expression(alloc, names, operand)?;
            Ok(Expression {
                node: Node::Negation(Box::new(alloc, operand)?),
            })
        }
        Node::Operation(operator, operands) => {
            let (left, right) = &**operands;
            let left = resolve_expression(alloc, names, left)?;
            let right = resolve_expression(alloc, names, right)?;
            let operands = Box::new(alloc, (left, right))?;
            Ok(Expression {
                node: Node::Operation(*operator, operands),
            })
        }
    }
}

/// Resolves the expressions of a key's components.
fn resolve_components(
    alloc: Global,
    names: &[Name<'_>],
    expressions: &[NamedExpression<'_>],
) -> Result<Components, CheckFault>
    requires named { length names.now ≤ MOST_NAMES }
    requires short { length expressions.now ≤ MAX_COMPONENTS }
    ensures resolves { IfOk result (AreExpressions (texts names.now) expressions.now) }
    ensures as_many { IfOk result (λ components. length components ≡ length expressions.now) }
    ensures faults { Reports (component_faults (texts names.now) expressions.now) result }
{
    let mut resolved = Vec::new(alloc);
    for expression in expressions {
        let expression = resolve_expression(alloc, names, expression)?;
        resolved.reserve(1)?;
        resolved.push_reserved(expression);
    }
    Ok(Components::new(resolved))
}

/// Resolves a key: the number of its collection, and the expressions of its components.
pub(crate) fn resolve_key(
    alloc: Global,
    names: &[Name<'_>],
    collections: &[Declared<'_>],
    allowed: &[bool],
    error: CheckError,
    name: &Name<'_>,
    components: &Vec<NamedExpression<'_>>,
) -> Result<(u16, Components), CheckFault>
    requires named { length names.now ≤ MOST_NAMES }
    requires few { AreFew collections.now }
    ensures is_key { IfOk result (ResolvesKey (texts names.now) collections.now name.now components.now.items) }
    ensures allowed { IfOk result (λ resolved. IsAllowed collections.now allowed.now resolved.0 (length resolved.1)) }
    ensures faults { ReportsKey (texts names.now) collections.now allowed.now error name.now components.now.items result }
{
    let number = number(collections, allowed, error, name, components)?;
    let components = resolve_components(alloc, names, components)?;
    Ok((number, components))
}
