ghost use Rattle.graph.specs.Canonical.{environment_relations, prescription_line, step_relations};
ghost use Rattle.graph.specs.Seen.{step_seen};
ghost use Rattle.graph.specs.Pieces.{Writes, relation_lines};
ghost use Rattle.steptree.specs.Names.{names_in};

use super::pieces::put;
use super::relations::{Kind, put_relations};
use super::words::Words;
use crate::graph::Prescribed;
use crate::parts::Parts;
use std::alloc::AllocError;
use terms::TagCollection;

/// The lines of the relations with the marked item collections.
fn put_item_relations(
    text: &mut Vec<u8>,
    graph: &Parts<'_>,
    kind: Kind<'_>,
    marks: &[bool],
) -> Result<(), AllocError>
    ensures { Writes result text.old text.new (relation_lines kind.entry (names_in graph.now.items) marks.now) }
{
    put_relations(text, kind, graph.items, marks)?;
    Ok(())
}

/// The lines of the relations with the marked tag collections.
fn put_tag_relations(
    text: &mut Vec<u8>,
    graph: &Parts<'_>,
    kind: Kind<'_>,
    marks: &[bool],
) -> Result<(), AllocError>
    ensures { Writes result text.old text.new (relation_lines kind.entry (names_in graph.now.tags) marks.now) }
{
    put_relations(text, kind, graph.tags, marks)?;
    Ok(())
}

/// The line of a prescription.
#[tactic(auto, using(std::proofs::Common::append_assoc))]
fn put_prescription(
    text: &mut Vec<u8>,
    words: &Words<'_>,
    tag: TagCollection,
    step: &str,
) -> Result<(), AllocError>
    ensures { Writes result text.old text.new (prescription_line words.now.graph.now tag.0 step.now) }
{
    put(text, &["<"])?;
    words.put_tag_name(text, tag)?;
    put(text, &["> :: (", step, ");\n"])
}

/// The relations of a step.
#[tactic(auto, using(std::proofs::Common::append_assoc))]
pub(crate) fn put_step_relations(
    text: &mut Vec<u8>,
    graph: &Parts<'_>,
    name: &str,
    step: &Prescribed,
) -> Result<(), AllocError>
    ensures { Writes result text.old text.new (step_relations graph.now (step_seen (name.now, step.now))) }
{
    let names = step.checked.names.as_slice();
    let words = Words { graph, names };
    put_prescription(text, &words, step.prescriber, name)?;
    put_item_relations(text, graph, Kind::Reads(name), &step.reads)?;
    put_item_relations(text, graph, Kind::PutsItem(name), &step.item_puts)?;
    put_tag_relations(text, graph, Kind::PutsTag(name), &step.tag_puts)
}

/// The relations of the environment.
#[tactic(auto, using(std::proofs::Common::append_assoc))]
pub(crate) fn put_environment(text: &mut Vec<u8>, graph: &Parts<'_>) -> Result<(), AllocError>
    ensures { Writes result text.old text.new (environment_relations graph.now) }
{
    put_item_relations(
        text,
        graph,
        Kind::EnvironmentPutsItem,
        graph.environment_item_puts,
    )?;
    put_tag_relations(
        text,
        graph,
        Kind::EnvironmentPutsTag,
        graph.environment_tag_puts,
    )?;
    put_item_relations(text, graph, Kind::EnvironmentGets, graph.environment_gets)
}
