ghost use Rattle.std.specs.Prelude.{◌≤◌, length};
ghost use Rattle.graph.specs.Canonical.{after_commas, heading_text, joined, step_line, step_text, variables_line};
ghost use Rattle.graph.specs.Seen.{owned_texts, step_seen};
ghost use Rattle.graph.specs.Pieces.{Writes, in_words, section_text};

use super::blocks::{put_block, put_line};
use super::pieces::put;
use super::words::Words;
use crate::graph::Prescribed;
use crate::parts::Parts;
use std::alloc::AllocError;
use steptree::Block;

/// Names, each after a comma.
#[tactic(auto, using(std::proofs::Common::append_assoc))]
fn put_more_names(text: &mut Vec<u8>, names: &[String]) -> Result<(), AllocError>
    ensures { Writes result text.old text.new (after_commas (owned_texts names.now)) }
{
    for name in names {
        put(text, &[", ", name.as_str()])?;
    }
    Ok(())
}

/// Names, with commas between them.
#[tactic(auto, using(std::proofs::Common::append_assoc))]
fn put_names(text: &mut Vec<u8>, names: &[String]) -> Result<(), AllocError>
    ensures { Writes result text.old text.new (joined (owned_texts names.now)) }
{
    match names {
        [] => Ok(()),
        [first, more @ ..] => {
            put(text, &[first.as_str()])?;
            put_more_names(text, more)
        }
    }
}

/// The line of the variables, if there are any.
#[tactic(auto, using(std::proofs::Common::append_assoc))]
fn put_variables(text: &mut Vec<u8>, names: &[String]) -> Result<(), AllocError>
    ensures { Writes result text.old text.new (variables_line (owned_texts names.now)) }
{
    match names {
        [] => Ok(()),
        _ => {
            put(text, &["  var "])?;
            put_names(text, names)?;
            put(text, &[";\n"])
        }
    }
}

/// The first line of a step.
#[tactic(auto, using(crate::proofs::Written::is_line, std::proofs::Common::append_assoc))]
fn put_head(text: &mut Vec<u8>, name: &str, parameters: &[String]) -> Result<(), AllocError>
    ensures { Writes result text.old text.new (step_line name.now (owned_texts parameters.now)) }
{
    put(text, &["step ", name, "("])?;
    put_names(text, parameters)?;
    put(text, &[") {\n"])
}

/// The read block or the write block of a step, with its first line and its last.
#[tactic(auto, using(std::proofs::Common::append_assoc))]
fn put_section(
    text: &mut Vec<u8>,
    words: &Words<'_>,
    title: &str,
    block: &Block,
) -> Result<(), AllocError>
    ensures { Writes result text.old text.new (in_words words.now section_text title.now block.now) }
{
    put_line(text, 1, title)?;
    put_block(text, words, 2, block)?;
    put_line(text, 1, "}")
}

/// The first line of a step, and the line of its variables; the first `parameters` names are the parameters.
fn put_heading(
    text: &mut Vec<u8>,
    name: &str,
    names: &[String],
    parameters: usize,
) -> Result<(), AllocError>
    requires { parameters ≤ length names.now }
    ensures { Writes result text.old text.new (heading_text name.now (owned_texts names.now) parameters) }
{
    put_head(text, name, &names[..parameters])?;
    put_variables(text, &names[parameters..])?;
    Ok(())
}

/// The text of a step.
#[tactic(auto, using(std::proofs::Common::append_assoc))]
pub(crate) fn put_step(
    text: &mut Vec<u8>,
    graph: &Parts<'_>,
    name: &str,
    step: &Prescribed,
) -> Result<(), AllocError>
    requires { step.now.checked.parameters ≤ length step.now.checked.names.items }
    ensures { Writes result text.old text.new (step_text graph.now (step_seen (name.now, step.now))) }
{
    let names = step.checked.names.as_slice();
    let words = Words { graph, names };
    put_heading(text, name, names, step.checked.parameters)?;
    put_section(text, &words, "read {", &step.checked.body.read)?;
    put_section(text, &words, "write {", &step.checked.body.write)?;
    put_line(text, 0, "}")
}
