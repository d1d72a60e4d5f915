ghost use Rattle.std.specs.Prelude.{◌≡◌, ◌≤◌, IfOk, IfSome, length, slice_get};
ghost use Rattle.std.specs.List.{flat_map};
ghost use Rattle.std.specs.Option.{option_map};
ghost use Rattle.graph.specs.Canonical.{canonical, declarations_text, step_relations, step_text};
ghost use Rattle.graph.specs.Seen.{step_seen};
ghost use Rattle.graph.specs.Graph.{Graph};
ghost use Rattle.graph.specs.Pieces.{Writes, where_there};
ghost use Rattle.graph.specs.Reads.{Reads};

mod blocks;
mod declarations;
mod expressions;
mod pieces;
mod relations;
mod steps;
mod ties;
mod words;

use crate::graph::{Graph, Prescribed};
use crate::one_reading;
use crate::parts::Parts;
use declarations::put_declarations;
use std::alloc::{AllocError, Global};
use steps::put_step;
use ties::{put_environment, put_step_relations};

/// The name of the step with a number, and the step.
fn step_at<'a>(graph: &'a Parts<'_>, number: usize) -> Option<(&'a str, &'a Prescribed)>
    ensures step { option_map (λ both. step_seen (both.0.now, both.1.now)) result ≡ slice_get graph.now.steps number }
    ensures parameters { IfSome result (λ both. both.1.now.checked.parameters ≤ length both.1.now.checked.names.items) }
{
    match graph.steps.name(number) {
        Some(name) => match graph.steps.value(number) {
            Some(step) => Some((name, step)),
            None => None,
        },
        None => None,
    }
}

/// The relations of the step with a number.
fn put_relations_at(text: &mut Vec<u8>, graph: &Parts<'_>, number: usize) -> Result<(), AllocError>
    ensures { Writes result text.old text.new (where_there (step_relations graph.now) (slice_get graph.now.steps number)) }
{
    match step_at(graph, number) {
        Some((name, step)) => put_step_relations(text, graph, name, step),
        None => Ok(()),
    }
}

/// The text of the step with a number.
fn put_step_at(text: &mut Vec<u8>, graph: &Parts<'_>, number: usize) -> Result<(), AllocError>
    ensures { Writes result text.old text.new (where_there (step_text graph.now) (slice_get graph.now.steps number)) }
{
    match step_at(graph, number) {
        Some((name, step)) => put_step(text, graph, name, step),
        None => Ok(()),
    }
}

/// The declarations of a graph.
#[tactic(auto, using(std::proofs::Common::append_assoc))]
fn put_collections(text: &mut Vec<u8>, graph: &Parts<'_>) -> Result<(), AllocError>
    ensures { Writes result text.old text.new (declarations_text graph.now) }
{
    put_declarations(text, graph.items, "[", "]")?;
    put_declarations(text, graph.tags, "<", ">")
}

/// The relations of all steps.
fn put_all_relations(text: &mut Vec<u8>, graph: &Parts<'_>) -> Result<(), AllocError>
    ensures { Writes result text.old text.new (flat_map (step_relations graph.now) graph.now.steps) }
{
    for number in 0..graph.steps.len() {
        put_relations_at(text, graph, number)?;
    }
    Ok(())
}

/// The texts of all steps.
fn put_steps(text: &mut Vec<u8>, graph: &Parts<'_>) -> Result<(), AllocError>
    ensures { Writes result text.old text.new (flat_map (step_text graph.now) graph.now.steps) }
{
    for number in 0..graph.steps.len() {
        put_step_at(text, graph, number)?;
    }
    Ok(())
}

/// The canonical text: the declarations, the relations of the steps and of the environment, and the texts of the steps. Each
/// part is in the order of the numbers; each declaration and relation has its own line.
#[tactic(auto, using(std::proofs::Common::append_assoc))]
pub(crate) fn written(alloc: Global, graph: &Parts<'_>) -> Result<Vec<u8>, AllocError>
    ensures { IfOk result (λ text. text.items ≡ canonical graph.now) }
{
    let mut text = Vec::new(alloc);
    put_collections(&mut text, graph)?;
    put_all_relations(&mut text, graph)?;
    put_environment(&mut text, graph)?;
    put_steps(&mut text, graph)?;
    Ok(text)
}

/// The canonical text of a graph. It reads as that graph, and as no other.
///
/// It returns an error only when memory was refused. It only reads the graph.
pub fn canonical(alloc: Global, graph: &Graph) -> Result<Vec<u8>, AllocError>
    ensures spelled { IfOk result (λ text. text.items ≡ canonical graph.now) }
    ensures reads { IfOk result (λ text. Reads text.items graph.now) }
    ensures nothing_else { IfOk result (λ text. (other : Graph) → Reads text.items other → graph.now ≡ other) }
{
    one_reading();
    let text = written(alloc, &graph.parts())?;
    Ok(text)
}
