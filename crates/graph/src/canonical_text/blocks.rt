ghost use Rattle.std.specs.Prelude.{◌≡◌, ◌<◌, length, suc};
ghost use Rattle.graph.specs.Canonical.{line, assignment_line, condition_line, range_line, get_line, put_item_line, put_tag_line, simple_line, choice_text, loop_text, block_text};
ghost use Rattle.graph.specs.Pieces.{Writes, WritesStatement, in_words, bounds_text};

use super::expressions::{put_expression, put_item, put_tag};
use super::pieces::{put, put_indentation};
use super::words::Words;
use std::alloc::AllocError;
use steptree::{Block, Components, Expression, Simple, Slot, Statement};
use terms::{ItemCollection, TagCollection};

/// An assignment.
#[tactic(auto, using(crate::proofs::Written::is_line, std::proofs::Common::append_assoc))]
fn put_assignment(
    text: &mut Vec<u8>,
    words: &Words<'_>,
    level: usize,
    variable: Slot,
    value: &Expression,
) -> Result<(), AllocError>
    ensures { Writes result text.old text.new (in_words words.now assignment_line level variable value.now) }
{
    put_indentation(text, level)?;
    words.put_variable(text, variable)?;
    put(text, &[" = "])?;
    put_expression(text, words, value)?;
    put(text, &[";\n"])
}

/// The first line of a choice.
#[tactic(auto, using(crate::proofs::Written::is_line, std::proofs::Common::append_assoc))]
fn put_condition(
    text: &mut Vec<u8>,
    words: &Words<'_>,
    level: usize,
    condition: &Expression,
) -> Result<(), AllocError>
    ensures { Writes result text.old text.new (in_words words.now condition_line level condition.now) }
{
    put_indentation(text, level)?;
    put(text, &["if ("])?;
    put_expression(text, words, condition)?;
    put(text, &[") {\n"])
}

/// The bounds of a loop.
#[tactic(auto, using(std::proofs::Common::append_assoc))]
fn put_bounds(
    text: &mut Vec<u8>,
    words: &Words<'_>,
    from: &Expression,
    to: &Expression,
) -> Result<(), AllocError>
    ensures { Writes result text.old text.new (in_words words.now bounds_text from.now to.now) }
{
    put_expression(text, words, from)?;
    put(text, &[" .. "])?;
    put_expression(text, words, to)
}

/// The first line of a loop.
#[tactic(auto, using(crate::proofs::Written::is_line, std::proofs::Common::append_assoc))]
fn put_range(
    text: &mut Vec<u8>,
    words: &Words<'_>,
    level: usize,
    variable: Slot,
    from: &Expression,
    to: &Expression,
) -> Result<(), AllocError>
    ensures { Writes result text.old text.new (in_words words.now range_line level variable from.now to.now) }
{
    put_indentation(text, level)?;
    put(text, &["for "])?;
    words.put_variable(text, variable)?;
    put(text, &[" in "])?;
    put_bounds(text, words, from, to)?;
    put(text, &[" {\n"])
}

/// A line with these words, indented by `level` levels.
#[tactic(auto, using(crate::proofs::Written::is_line, std::proofs::Common::append_assoc))]
pub(crate) fn put_line(text: &mut Vec<u8>, level: usize, words: &str) -> Result<(), AllocError>
    ensures { Writes result text.old text.new (line level words.now) }
{
    put_indentation(text, level)?;
    put(text, &[words, "\n"])
}

/// A read of an item.
#[tactic(auto, using(crate::proofs::Written::is_line, std::proofs::Common::append_assoc))]
fn put_get(
    text: &mut Vec<u8>,
    words: &Words<'_>,
    level: usize,
    variable: Slot,
    item: ItemCollection,
    components: &Components,
) -> Result<(), AllocError>
    ensures { Writes result text.old text.new (in_words words.now get_line level variable item.0 components.now) }
{
    put_indentation(text, level)?;
    put(text, &["get "])?;
    words.put_variable(text, variable)?;
    put(text, &[" = "])?;
    put_item(text, words, item, components)?;
    put(text, &[";\n"])
}

/// A put of an item.
#[tactic(auto, using(crate::proofs::Written::is_line, std::proofs::Common::append_assoc))]
fn put_item_put(
    text: &mut Vec<u8>,
    words: &Words<'_>,
    level: usize,
    item: ItemCollection,
    components: &Components,
    value: &Expression,
) -> Result<(), AllocError>
    ensures { Writes result text.old text.new (in_words words.now put_item_line level item.0 components.now value.now) }
{
    put_indentation(text, level)?;
    put(text, &["put "])?;
    put_item(text, words, item, components)?;
    put(text, &[" = "])?;
    put_expression(text, words, value)?;
    put(text, &[";\n"])
}

/// A put of a tag.
#[tactic(auto, using(crate::proofs::Written::is_line, std::proofs::Common::append_assoc))]
fn put_tag_put(
    text: &mut Vec<u8>,
    words: &Words<'_>,
    level: usize,
    tag: TagCollection,
    components: &Components,
) -> Result<(), AllocError>
    ensures { Writes result text.old text.new (in_words words.now put_tag_line level tag.0 components.now) }
{
    put_indentation(text, level)?;
    put(text, &["put "])?;
    put_tag(text, words, tag, components)?;
    put(text, &[";\n"])
}

/// A statement without blocks.
fn put_simple(
    text: &mut Vec<u8>,
    words: &Words<'_>,
    level: usize,
    statement: &Simple,
) -> Result<(), AllocError>
    ensures { Writes result text.old text.new (in_words words.now simple_line level statement.now) }
{
    match statement {
        Simple::Assign { variable, value } => put_assignment(text, words, level, *variable, value),
        Simple::Get {
            variable,
            collection,
            components,
        } => put_get(text, words, level, *variable, *collection, components),
        Simple::PutItem {
            collection,
            components,
            value,
        } => put_item_put(text, words, level, *collection, components, value),
        Simple::PutTag {
            collection,
            components,
        } => put_tag_put(text, words, level, *collection, components),
    }
}

/// One level more than that of a line in the text; the indentation of that line has at least `level` bytes.
fn deeper(text: &[u8], level: usize) -> usize
    requires { level < length text.now }
    ensures { result ≡ suc level }
{
    level + 1
}

/// A choice, with its blocks.
#[cycle(blocks)]
#[tactic(auto, using(std::proofs::Common::append_assoc))]
fn put_choice(
    text: &mut Vec<u8>,
    words: &Words<'_>,
    level: usize,
    condition: &Expression,
    first: &Block,
    second: &Block,
) -> Result<(), AllocError>
    ensures { Writes result text.old text.new (in_words words.now choice_text level condition.now first.now second.now) }
{
    put_condition(text, words, level, condition)?;
    let next = deeper(text, level);
    put_block(text, words, next, first)?;
    put_line(text, level, "} else {")?;
    put_block(text, words, next, second)?;
    put_line(text, level, "}")
}

/// A loop, with its block.
#[cycle(blocks)]
#[tactic(auto, using(std::proofs::Common::append_assoc))]
fn put_loop(
    text: &mut Vec<u8>,
    words: &Words<'_>,
    level: usize,
    variable: Slot,
    from: &Expression,
    to: &Expression,
    block: &Block,
) -> Result<(), AllocError>
    ensures { Writes result text.old text.new (in_words words.now loop_text level variable from.now to.now block.now) }
{
    put_range(text, words, level, variable, from, to)?;
    let next = deeper(text, level);
    put_block(text, words, next, block)?;
    put_line(text, level, "}")
}

/// A statement, with the blocks inside it.
#[cycle(blocks)]
#[tactic(auto, using(std::proofs::Common::append_assoc))]
fn put_statement(
    text: &mut Vec<u8>,
    words: &Words<'_>,
    level: usize,
    statement: &Statement,
) -> Result<(), AllocError>
    ensures { WritesStatement result text.old text.new words.now level statement.now }
{
    match statement {
        Statement::Simple(simple) => put_simple(text, words, level, simple),
        Statement::If {
            condition,
            first,
            second,
        } => put_choice(text, words, level, condition, first, second),
        Statement::For {
            variable,
            from,
            to,
            block,
        } => put_loop(text, words, level, *variable, from, to, block),
    }
}

/// A block, one statement a line, indented by `level` levels.
#[cycle(blocks)]
pub(crate) fn put_block(
    text: &mut Vec<u8>,
    words: &Words<'_>,
    level: usize,
    block: &Block,
) -> Result<(), AllocError>
    ensures { Writes result text.old text.new (in_words words.now block_text level block.now) }
{
    for statement in &block.statements {
        put_statement(text, words, level, statement)?;
    }
    Ok(())
}
