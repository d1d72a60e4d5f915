//! Expressions: a loop over their tokens, with a level for each open bracket; and a short way for an operand alone.
ghost use Rattle.std.specs.Prelude.{◌<◌, ◌∷◌, [], length, Bool, IfOk, IfErr, IfSome, OnOk};
ghost use Rattle.syntax.specs.Expected.{possible, whole};
ghost use Rattle.syntax.specs.Front.{behind_front};
ghost use Rattle.syntax.specs.Parsed.{left, Stops};
ghost use Rattle.syntax.specs.Whole.{IsExpression, ReadsExpression, StopsInExpression};

use crate::MOST_NAME_BYTES;
use crate::cursor::Cursor;
use crate::joints::{Head, Joint};
use crate::partial::{After, Partial};
use crate::stop::Stop;
use steptree::{Expression, Name, NamedExpression, Node};

// The expression of the next token alone: a number or a variable, if the token behind it can only end an expression. A name
// that is too long is left to `expression`, which reports it.
fn operand_alone<'a>(cursor: &Cursor<'a>) -> Option<NamedExpression<'a>>
    ensures reads { IfSome result (λ tree. (may_compare : Bool) → ReadsExpression may_compare tree (left cursor.now) (behind_front (left cursor.now))) }
    ensures fewer { IfSome result (λ tree. length (behind_front (left cursor.now)) < length (left cursor.now)) }
{
    let Joint::Ends = Joint::of(cursor.second()) else {
        return None;
    };
    let node = match Head::of(cursor.front()) {
        Head::Number(value) => Node::Number(value),
        Head::Variable(text) if text.len() <= MOST_NAME_BYTES => Node::Variable(Name {
            text,
            place: cursor.place(),
        }),
        _ => return None,
    };
    Some(Expression { node })
}

/// An expression, or a component of a key, which has no comparison outside brackets.
///
/// If a whole expression is too deep, the error is at its first token. Otherwise the error is at the first limit that is
/// passed within the expression, also if the expression breaks off.
pub(crate) fn expression<'a>(
    cursor: &mut Cursor<'a>,
    may_compare: bool,
) -> Result<NamedExpression<'a>, Stop>
    ensures reads { IfOk result (λ tree. ReadsExpression may_compare tree (left cursor.old) (left cursor.new)) }
    ensures fewer { OnOk result (length (left cursor.new) < length (left cursor.old)) }
    ensures stops { IfErr result (StopsInExpression may_compare (left cursor.old) (left cursor.new)) }
{
    if let Some(tree) = operand_alone(cursor) {
        cursor.advance();
        return Ok(tree);
    }
    let mut partial = Partial::begun(cursor.alloc, may_compare, cursor.place());
    let mut product = None;
    loop {
        match product {
            None => product = partial.begin(cursor)?,
            Some(operand) => match partial.go_on(cursor, operand)? {
                After::AwaitsOperand => product = None,
                After::HasProduct(operand) => product = Some(operand),
                After::Ends(product) => return partial.finish(cursor.alloc, product)?,
            },
        }
    }
}

/// A whole expression of a statement.
pub(crate) fn value<'a>(cursor: &mut Cursor<'a>) -> Result<NamedExpression<'a>, Stop>
    ensures reads { IfOk result (λ tree. IsExpression possible tree (left cursor.old) (left cursor.new)) }
    ensures stops { IfErr result (Stops (whole possible ∷ []) (left cursor.old) (left cursor.new)) }
{
    expression(cursor, true)
}
