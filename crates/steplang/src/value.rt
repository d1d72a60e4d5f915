ghost use Rattle.std.specs.Prelude.{◌≡◌, ◌-◌, ◌++◌, pos, replicate, Ok, Err, length, IfSome, IfNone};
ghost use Rattle.steptree.specs.declared.expression.Operator.TheVariants.{Add, Subtract, Divide, Remainder};
ghost use Rattle.steptree.specs.Values.{operated, value_of, values_of};
ghost use Rattle.steptree.specs.Tree.{Number};
ghost use Rattle.steptree.specs.Executed.{operand_of, pair_of, linked, chained, expression_of};
ghost use Rattle.steplang.specs.Leaf.{IsDeep, IsLong};
ghost use Rattle.steplang.specs.FaultsOf.{fault_of};
ghost use Rattle.steptree.specs.declared.slot.TheConstants.{MOST_NAMES};

use steptree::{Components, Expression, Formula, Link, MOST_NAMES, Node, Operand, Operator, Pair};
use terms::{FaultKind, Key, MAX_COMPONENTS};

/// The values of an instance's variables, by slot.
pub(crate) type Variables = [i64; MOST_NAMES];

/// The values before the first statement: the components of the key, and zeros after them.
pub(crate) fn variables_of(key: Key) -> Variables
    ensures { result ≡ key ++ replicate (MOST_NAMES - length key) (pos 0) }
{
    let mut variables = [0; MOST_NAMES];
    let components = key.components();
    variables[..components.len()].copy_from_slice(components);
    variables
}

/// Evaluates a formula, its operands from the left.
#[inline(always)]
pub(crate) fn evaluate(formula: &Formula, variables: &Variables) -> Result<i64, FaultKind>
    ensures { result ≡ value_of (expression_of formula.now) variables.now }
{
    match formula {
        Formula::Leaf(leaf) => Ok(operand(leaf, variables)),
        Formula::Sum(left, right) => add(variables[left.place()], variables[right.place()]),
        Formula::SumWith(left, right) => add(variables[left.place()], *right),
        Formula::Variables(operator, left, right) => operate(
            *operator,
            variables[left.place()],
            variables[right.place()],
        ),
        Formula::WithNumber(operator, left, right) => {
            operate(*operator, variables[left.place()], *right)
        }
        Formula::Two(pair) => evaluate_pair(pair, variables),
        Formula::First(operator, left, right) => {
            let left = evaluate_pair(left, variables)?;
            operate(*operator, left, operand(right, variables))
        }
        Formula::Second(operator, left, right) => {
            let left = operand(left, variables);
            let right = evaluate_pair(right, variables)?;
            operate(*operator, left, right)
        }
        Formula::Both(operator, left, right) => {
            let left = evaluate_pair(left, variables)?;
            let right = evaluate_pair(right, variables)?;
            operate(*operator, left, right)
        }
        Formula::FirstThen(..) | Formula::SecondThen(..) | Formula::Chain(..) | Formula::Deep(_) =>
            long(formula, variables),
    }
}

// Calls `evaluate_long`. Its result gets a place of its own in memory, so that the shorter formulas need not clear one.
#[inline(always)]
fn long(formula: &Formula, variables: &Variables) -> Result<i64, FaultKind>
    requires { IsLong formula.now }
    ensures { result ≡ value_of (expression_of formula.now) variables.now }
{
    let value = evaluate_long(formula, variables)?;
    Ok(value)
}

// Evaluates a formula of more than two operations in a row. It is a call, so that the shorter ones have room; and it
// counts as cold, so that registers are saved around this call alone.
#[cold]
#[inline(never)]
fn evaluate_long(formula: &Formula, variables: &Variables) -> Result<i64, FaultKind>
    requires { IsLong formula.now }
    ensures { result ≡ value_of (expression_of formula.now) variables.now }
{
    match formula {
        Formula::FirstThen(operator, inner, left, right, last) => {
            let left = evaluate_pair(left, variables)?;
            let left = operate(*inner, left, operand(right, variables))?;
            operate(*operator, left, operand(last, variables))
        }
        Formula::SecondThen(operator, inner, left, right, last) => {
            let left = operand(left, variables);
            let right = evaluate_pair(right, variables)?;
            let left = operate(*inner, left, right)?;
            operate(*operator, left, operand(last, variables))
        }
        Formula::Chain(first, links) => evaluate_chain(first, links, variables),
        Formula::Deep(expression) => evaluate_expression(expression, variables),
        _ => unreachable!(),
    }
}

// Evaluates a pair, and what the links make of its value.
fn evaluate_chain(first: &Pair, links: &[Link], variables: &Variables) -> Result<i64, FaultKind>
    ensures { result ≡ value_of (chained (pair_of first.now) links.now) variables.now }
{
    let mut value = match evaluate_pair(first, variables) {
        Ok(value) => value,
        Err(kind) => return Err(kind),
    };
    for link in links {
        match evaluate_link(value, link, variables) {
            Ok(next) => value = next,
            Err(kind) => return Err(kind),
        }
    }
    Ok(value)
}

// Evaluates one more operation, on a value.
#[inline(always)]
fn evaluate_link(value: i64, link: &Link, variables: &Variables) -> Result<i64, FaultKind>
    ensures { result ≡ value_of (linked (Number value) link.now) variables.now }
{
    match link {
        Link::Before(operator, right) => operate(*operator, value, operand(right, variables)),
        Link::After(operator, left) => operate(*operator, operand(left, variables), value),
        Link::BeforePair(operator, right) => {
            let right = evaluate_pair(right, variables)?;
            operate(*operator, value, right)
        }
    }
}

// Evaluates an operation on two operands.
#[inline(always)]
fn evaluate_pair(pair: &Pair, variables: &Variables) -> Result<i64, FaultKind>
    ensures { result ≡ value_of (pair_of pair.now) variables.now }
{
    let left = operand(&pair.left, variables);
    let right = operand(&pair.right, variables);
    operate(pair.operator, left, right)
}

// The value of an operand.
#[inline(always)]
fn operand(operand: &Operand, variables: &Variables) -> i64
    ensures { value_of (operand_of operand.now) variables.now ≡ Ok result }
{
    match operand {
        Operand::Number(number) => *number,
        Operand::Variable(slot) => variables[slot.place()],
    }
}

// The value of a number or a variable.
#[inline(always)]
fn leaf(expression: &Expression, variables: &Variables) -> Option<i64>
    ensures value { IfSome result (λ value. value_of expression.now variables.now ≡ Ok value) }
    ensures deep { IfNone result (IsDeep expression.now) }
{
    match &expression.node {
        Node::Number(number) => Some(*number),
        Node::Variable(slot) => Some(variables[slot.place()]),
        _ => None,
    }
}

// The value of a leaf, or of an operation on two leaves. Most operands are one of these.
#[inline(always)]
fn shallow(expression: &Expression, variables: &Variables) -> Option<Result<i64, FaultKind>>
    ensures { IfSome result (λ value. value_of expression.now variables.now ≡ value) }
{
    match &expression.node {
        Node::Number(number) => Some(Ok(*number)),
        Node::Variable(slot) => Some(Ok(variables[slot.place()])),
        Node::Negation(_) => None,
        Node::Operation(operator, operands) => {
            let left = leaf(&operands.0, variables)?;
            let right = leaf(&operands.1, variables)?;
            Some(operate(*operator, left, right))
        }
    }
}

/// Evaluates an expression, its operands from the left.
pub(crate) fn evaluate_expression(
    expression: &Expression,
    variables: &Variables,
) -> Result<i64, FaultKind>
    ensures { result ≡ value_of expression.now variables.now }
{
    // An operation needs a call only for an operand that is not shallow.
    if let Node::Operation(operator, operands) = &expression.node {
        let (left, right) = &**operands;
        let left = match shallow(left, variables) {
            Some(value) => value?,
            None => evaluate_any(left, variables)?,
        };
        let right = match shallow(right, variables) {
            Some(value) => value?,
            None => evaluate_any(right, variables)?,
        };
        return operate(*operator, left, right);
    }
    evaluate_any(expression, variables)
}

// Evaluates any expression.
fn evaluate_any(expression: &Expression, variables: &Variables) -> Result<i64, FaultKind>
    ensures { result ≡ value_of expression.now variables.now }
{
    match &expression.node {
        Node::Number(number) => Ok(*number),
        Node::Variable(slot) => Ok(variables[slot.place()]),
        Node::Negation(operand) => {
            let value = evaluate_any(operand, variables)?;
            value.checked_neg().ok_or(FaultKind::Overflow)
        }
        Node::Operation(operator, operands) => {
            let (left, right) = &**operands;
            let left = match shallow(left, variables) {
                Some(value) => value?,
                None => evaluate_any(left, variables)?,
            };
            let right = match shallow(right, variables) {
                Some(value) => value?,
                None => evaluate_any(right, variables)?,
            };
            operate(*operator, left, right)
        }
    }
}

/// The key whose components are the values of these expressions, evaluated from the left.
pub(crate) fn evaluate_key(components: &Components, variables: &Variables) -> Result<Key, FaultKind>
    ensures { result ≡ values_of components.now variables.now }
{
    let expressions = components.as_slice();
    let mut values = [0; MAX_COMPONENTS];
    for (index, expression) in expressions.iter().enumerate() {
        values[index] = evaluate_expression(expression, variables)?;
    }
    Ok(Key::new(&values[..expressions.len()]))
}

// Applies an operator to two values.
#[inline(always)]
fn operate(operator: Operator, left: i64, right: i64) -> Result<i64, FaultKind>
    ensures { result ≡ operated operator left right }
{
    match operator {
        Operator::Add => add(left, right),
        Operator::Subtract => subtract(left, right),
        Operator::Multiply => held(left.checked_mul(right), operator, right),
        Operator::Divide => divide(left, right),
        Operator::Remainder => remainder(left, right),
        Operator::Equal => Ok(i64::from(left == right)),
        Operator::NotEqual => Ok(i64::from(left != right)),
        Operator::Less => Ok(i64::from(left < right)),
        Operator::LessOrEqual => Ok(i64::from(left <= right)),
        Operator::Greater => Ok(i64::from(left > right)),
        Operator::GreaterOrEqual => Ok(i64::from(left >= right)),
    }
}

// The result of an operation, if there is one.
#[inline(always)]
fn held(value: Option<i64>, operator: Operator, right: i64) -> Result<i64, FaultKind>
    ensures some { IfSome value (λ v. result ≡ Ok v) }
    ensures none { IfNone value (result ≡ Err (fault_of operator right)) }
{
    match value {
        Some(value) => Ok(value),
        None => Err(fault(operator, right)),
    }
}

// Why an operation has no result.
#[cold]
#[inline(never)]
fn fault(operator: Operator, right: i64) -> FaultKind
    ensures { result ≡ fault_of operator right }
{
    match operator {
        Operator::Divide => fault_of_division(right),
        Operator::Remainder => fault_of_division(right),
        _ => FaultKind::Overflow,
    }
}

// Why a division has no result.
fn fault_of_division(right: i64) -> FaultKind
    ensures { result ≡ fault_of Divide right }
{
    if right == 0 {
        return FaultKind::DivisionByZero;
    }
    FaultKind::Overflow
}

// The sum. In each branch the sign of the right operand is known, so that one comparison tells whether the sum fits.
#[inline(always)]
fn add(left: i64, right: i64) -> Result<i64, FaultKind>
    ensures { result ≡ operated Add left right }
{
    if right < 0 {
        return held(left.checked_add(right), Operator::Add, right);
    }
    held(left.checked_add(right), Operator::Add, right)
}

// The difference, in branches as the sum.
#[inline(always)]
fn subtract(left: i64, right: i64) -> Result<i64, FaultKind>
    ensures { result ≡ operated Subtract left right }
{
    if right < 0 {
        return held(left.checked_sub(right), Operator::Subtract, right);
    }
    held(left.checked_sub(right), Operator::Subtract, right)
}

// The quotient, rounded toward zero.
fn divide(left: i64, right: i64) -> Result<i64, FaultKind>
    ensures { result ≡ operated Divide left right }
{
    held(left.checked_div(right), Operator::Divide, right)
}

// The remainder, with the sign of the dividend.
fn remainder(left: i64, right: i64) -> Result<i64, FaultKind>
    ensures { result ≡ operated Remainder left right }
{
    if right == 0 {
        return Err(fault(Operator::Remainder, right));
    }
    Ok(left.wrapping_rem(right))
}
