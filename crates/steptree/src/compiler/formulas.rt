ghost use Rattle.std.specs.Prelude.{◌≡◌, ◌<◌, [], IfOk, IfSome};
ghost use Rattle.steptree.specs.Tree.{Number, Variable, Operation, expression_size};
ghost use Rattle.steptree.specs.Executed.{operand_of, pair_of, linked, chained, expression_of};

use crate::{Expression, Formula, Link, Node, Operand, Operator, Pair, Slot};
use std::alloc::{AllocError, Global};

/// The form in which an expression is evaluated.
pub(crate) fn formula(alloc: Global, expression: &Expression) -> Result<Formula, AllocError>
    ensures { IfOk result (λ formula. expression_of formula ≡ expression.now) }
{
    if let Some(formula) = shallow(expression) {
        return Ok(formula);
    }
    let mut links = Vec::new(alloc);
    match chain(expression, &mut links)? {
        Some(first) => Ok(Formula::Chain(first, links)),
        None => Ok(Formula::Deep(expression.copied(alloc)?)),
    }
}

// A form of its own, if the expression is small enough.
fn shallow(expression: &Expression) -> Option<Formula>
    ensures { IfSome result (λ formula. expression_of formula ≡ expression.now) }
{
    if let Some(leaf) = operand(expression) {
        return Some(Formula::Leaf(leaf));
    }
    if let Some(formula) = on_variable(expression) {
        return Some(formula);
    }
    if let Some(pair) = pair(expression) {
        return Some(Formula::Two(pair));
    }
    if let Some(formula) = nested(expression) {
        return Some(formula);
    }
    nested_then(expression)
}

// The chain of an expression, if it is one: its innermost operation is a pair, and each other one has a number or a variable
// as an operand, or a pair as the right one. The links are added to a list that has none.
#[tactic(auto, using(crate::proofs::Chained::one_more))]
fn chain(expression: &Expression, links: &mut Vec<Link>) -> Result<Option<Pair>, AllocError>
    requires { links.old.items ≡ [] }
    ensures { IfOk result (λ found. IfSome found (λ first. chained (pair_of first) links.new.items ≡ expression.now)) }
{
    if let Some(first) = pair(expression) {
        return Ok(Some(first));
    }
    let Some((before, link)) = split(expression) else {
        return Ok(None);
    };
    let Some(first) = chain(before, links)? else {
        return Ok(None);
    };
    links.push(link)?;
    Ok(Some(first))
}

// Splits an operation into one of its operands and the link that makes the operation of it. The other operand is a number
// or a variable, or a pair on the right.
fn split(expression: &Expression) -> Option<(&Expression, Link)>
    ensures linked { IfSome result (λ parts. linked parts.0.now parts.1 ≡ expression.now) }
    ensures smaller { IfSome result (λ parts. expression_size parts.0.now < expression_size expression.now) }
{
    match &expression.node {
        Node::Operation(operator, operands) => {
            let (left, right) = &**operands;
            if let Some(right) = operand(right) {
                return Some((left, Link::Before(*operator, right)));
            }
            if let Some(left) = operand(left) {
                return Some((right, Link::After(*operator, left)));
            }
            let right = pair(right)?;
            Some((left, Link::BeforePair(*operator, right)))
        }
        _ => None,
    }
}

// A number or a variable.
fn operand(expression: &Expression) -> Option<Operand>
    ensures { IfSome result (λ operand. operand_of operand ≡ expression.now) }
{
    match &expression.node {
        Node::Number(number) => Some(Operand::Number(*number)),
        Node::Variable(slot) => Some(Operand::Variable(*slot)),
        _ => None,
    }
}

// An operation on numbers and variables.
fn pair(expression: &Expression) -> Option<Pair>
    ensures { IfSome result (λ pair. pair_of pair ≡ expression.now) }
{
    match &expression.node {
        Node::Operation(operator, operands) => Some(Pair {
            operator: *operator,
            left: operand(&operands.0)?,
            right: operand(&operands.1)?,
        }),
        _ => None,
    }
}

// A variable.
fn variable(expression: &Expression) -> Option<Slot>
    ensures { IfSome result (λ slot. Variable slot ≡ expression.now) }
{
    match &expression.node {
        Node::Variable(slot) => Some(*slot),
        _ => None,
    }
}

// A number.
fn number(expression: &Expression) -> Option<i64>
    ensures { IfSome result (λ number. Number number ≡ expression.now) }
{
    match &expression.node {
        Node::Number(number) => Some(*number),
        _ => None,
    }
}

// An operation on two variables.
fn variables(operator: Operator, left: Slot, right: Slot) -> Formula
    ensures { expression_of result ≡ Operation operator (Variable left) (Variable right) }
{
    match operator {
        Operator::Add => Formula::Sum(left, right),
        _ => Formula::Variables(operator, left, right),
    }
}

// An operation on a variable and a number.
fn with_number(operator: Operator, left: Slot, right: i64) -> Formula
    ensures { expression_of result ≡ Operation operator (Variable left) (Number right) }
{
    match operator {
        Operator::Add => Formula::SumWith(left, right),
        _ => Formula::WithNumber(operator, left, right),
    }
}

// An operation on a variable and another one or a number.
fn on_variable(expression: &Expression) -> Option<Formula>
    ensures { IfSome result (λ formula. expression_of formula ≡ expression.now) }
{
    match &expression.node {
        Node::Operation(operator, operands) => {
            let left = variable(&operands.0)?;
            if let Some(right) = variable(&operands.1) {
                return Some(variables(*operator, left, right));
            }
            let right = number(&operands.1)?;
            Some(with_number(*operator, left, right))
        }
        _ => None,
    }
}

// An operation on a pair and another pair or an operand.
fn nested(expression: &Expression) -> Option<Formula>
    ensures { IfSome result (λ formula. expression_of formula ≡ expression.now) }
{
    match &expression.node {
        Node::Operation(operator, operands) => {
            if let Some(left) = operand(&operands.0) {
                let right = pair(&operands.1)?;
                return Some(Formula::Second(*operator, left, right));
            }
            let left = pair(&operands.0)?;
            if let Some(right) = operand(&operands.1) {
                return Some(Formula::First(*operator, left, right));
            }
            let right = pair(&operands.1)?;
            Some(Formula::Both(*operator, left, right))
        }
        _ => None,
    }
}

// An operation on what `nested` has a form for, but for two pairs, and an operand.
fn nested_then(expression: &Expression) -> Option<Formula>
    ensures { IfSome result (λ formula. expression_of formula ≡ expression.now) }
{
    match &expression.node {
        Node::Operation(operator, operands) => {
            let last = operand(&operands.1)?;
            match &operands.0.node {
                Node::Operation(inner, parts) => {
                    if let Some(left) = operand(&parts.0) {
                        let right = pair(&parts.1)?;
                        return Some(Formula::SecondThen(*operator, *inner, left, right, last));
                    }
                    let left = pair(&parts.0)?;
                    let right = operand(&parts.1)?;
                    Some(Formula::FirstThen(*operator, *inner, left, right, last))
                }
                _ => None,
            }
        }
        _ => None,
    }
}
