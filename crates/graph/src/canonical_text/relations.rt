ghost use Rattle.graph.specs.Numbered.{names_numbered};
ghost use Rattle.graph.specs.Pieces.{Writes, relation_line, relation_at, relation_lines};

use super::pieces::put;
use crate::numbered::Numbered;
use std::alloc::AllocError;

/// A relation without the item or tag collection at one of its ends; a step is given by its name.
#[derive(Clone, Copy)]
pub(crate) enum Kind<'a> {
    Reads(&'a str),
    PutsItem(&'a str),
    PutsTag(&'a str),
    EnvironmentPutsItem,
    EnvironmentPutsTag,
    EnvironmentGets,
}

/// The line of a relation.
#[tactic(auto, using(std::proofs::Common::append_assoc))]
fn put_relation(text: &mut Vec<u8>, kind: Kind<'_>, name: &str) -> Result<(), AllocError>
    ensures { Writes result text.old text.new (relation_line kind.entry name.now) }
{
    match kind {
        Kind::Reads(step) => put(text, &["[", name, "] -> (", step, ");\n"]),
        Kind::PutsItem(step) => put(text, &["(", step, ") -> [", name, "];\n"]),
        Kind::PutsTag(step) => put(text, &["(", step, ") -> <", name, ">;\n"]),
        Kind::EnvironmentPutsItem => put(text, &["env -> [", name, "];\n"]),
        Kind::EnvironmentPutsTag => put(text, &["env -> <", name, ">;\n"]),
        Kind::EnvironmentGets => put(text, &["[", name, "] -> env;\n"]),
    }
}

/// The line of a relation with the collection of this number, if that collection is marked.
fn put_relation_at(
    text: &mut Vec<u8>,
    kind: Kind<'_>,
    collections: &Numbered<usize>,
    marks: &[bool],
    number: usize,
) -> Result<(), AllocError>
    ensures { Writes result text.old text.new (relation_at kind.entry (names_numbered collections.now) marks.now number) }
{
    match collections.name(number) {
        Some(name) => {
            if number < marks.len() && marks[number] {
                put_relation(text, kind, name)
            } else {
                Ok(())
            }
        }
        None => Ok(()),
    }
}

/// The lines of the relations with the marked collections.
pub(crate) fn put_relations(
    text: &mut Vec<u8>,
    kind: Kind<'_>,
    collections: &Numbered<usize>,
    marks: &[bool],
) -> Result<(), AllocError>
    ensures { Writes result text.old text.new (relation_lines kind.entry (names_numbered collections.now) marks.now) }
{
    for number in 0..collections.len() {
        put_relation_at(text, kind, collections, marks, number)?;
    }
    Ok(())
}
