ghost use Rattle.std.specs.Prelude.{◌≡◌, ◌++◌, codes, map};
ghost use Rattle.graph.specs.Canonical.{after_commas, operator_text, expression_text, item_text, tag_text};
ghost use Rattle.graph.specs.Pieces.{Writes, after_colon, in_words};

use super::pieces::{put, put_number};
use super::words::Words;
use std::alloc::AllocError;
use steptree::{Components, Expression, Node, Operator};
use terms::{ItemCollection, TagCollection};

/// The text of an operator, between blanks.
fn sign(operator: Operator) -> &'static str
    ensures { result.now ≡ codes " " ++ operator_text operator ++ codes " " }
{
    match operator {
        Operator::Add => " + ",
        Operator::Subtract => " - ",
        Operator::Multiply => " * ",
        Operator::Divide => " / ",
        Operator::Remainder => " % ",
        Operator::Equal => " == ",
        Operator::NotEqual => " != ",
        Operator::Less => " < ",
        Operator::LessOrEqual => " <= ",
        Operator::Greater => " > ",
        Operator::GreaterOrEqual => " >= ",
    }
}

/// An expression, each operation in brackets.
#[tactic(auto, using(std::proofs::Common::append_assoc))]
pub(crate) fn put_expression(
    text: &mut Vec<u8>,
    words: &Words<'_>,
    expression: &Expression,
) -> Result<(), AllocError>
    ensures { Writes result text.old text.new (in_words words.now expression_text expression.now) }
{
    match &expression.node {
        Node::Number(number) => put_number(text, *number),
        Node::Variable(slot) => words.put_variable(text, *slot),
        Node::Negation(operand) => {
            put(text, &["(-"])?;
            put_expression(text, words, operand)?;
            put(text, &[")"])
        }
        Node::Operation(operator, operands) => {
            let (left, right) = &**operands;
            put(text, &["("])?;
            put_expression(text, words, left)?;
            put(text, &[sign(*operator)])?;
            put_expression(text, words, right)?;
            put(text, &[")"])
        }
    }
}

/// Expressions, each after a comma.
#[tactic(auto, using(std::proofs::Common::append_assoc))]
fn put_more(
    text: &mut Vec<u8>,
    words: &Words<'_>,
    expressions: &[Expression],
) -> Result<(), AllocError>
    ensures { Writes result text.old text.new (after_commas (map (in_words words.now expression_text) expressions.now)) }
{
    for expression in expressions {
        put(text, &[", "])?;
        put_expression(text, words, expression)?;
    }
    Ok(())
}

/// The components of a key, after a colon if there are any.
#[tactic(auto, using(std::proofs::Common::append_assoc))]
fn put_components(
    text: &mut Vec<u8>,
    words: &Words<'_>,
    components: &[Expression],
) -> Result<(), AllocError>
    ensures { Writes result text.old text.new (after_colon (map (in_words words.now expression_text) components.now)) }
{
    match components {
        [] => Ok(()),
        [first, more @ ..] => {
            put(text, &[": "])?;
            put_expression(text, words, first)?;
            put_more(text, words, more)
        }
    }
}

/// An item.
#[tactic(auto, using(crate::proofs::Written::colon_behind, std::proofs::Common::append_assoc))]
pub(crate) fn put_item(
    text: &mut Vec<u8>,
    words: &Words<'_>,
    item: ItemCollection,
    components: &Components,
) -> Result<(), AllocError>
    ensures { Writes result text.old text.new (in_words words.now item_text item.0 components.now) }
{
    put(text, &["["])?;
    words.put_item_name(text, item)?;
    put_components(text, words, components.as_slice())?;
    put(text, &["]"])
}

/// A tag.
#[tactic(auto, using(crate::proofs::Written::colon_behind, std::proofs::Common::append_assoc))]
pub(crate) fn put_tag(
    text: &mut Vec<u8>,
    words: &Words<'_>,
    tag: TagCollection,
    components: &Components,
) -> Result<(), AllocError>
    ensures { Writes result text.old text.new (in_words words.now tag_text tag.0 components.now) }
{
    put(text, &["<"])?;
    words.put_tag_name(text, tag)?;
    put_components(text, words, components.as_slice())?;
    put(text, &[">"])
}
