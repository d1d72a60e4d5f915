ghost use Rattle.std.specs.Prelude.{slice_get};
ghost use Rattle.graph.specs.Canonical.{between, component_names, declaration_line, declaration_lines, with_colon};
ghost use Rattle.graph.specs.Collected.{collections_numbered};
ghost use Rattle.graph.specs.Pieces.{Writes, after_colon, declaration_at};

use super::pieces::put;
use crate::numbered::Numbered;
use std::alloc::AllocError;

/// The names of `components` components, after a colon if there are any.
fn put_component_names(text: &mut Vec<u8>, components: usize) -> Result<(), AllocError>
    ensures { Writes result text.old text.new (after_colon (component_names components)) }
{
    let names = [": i", ", j", ", k", ", l", ", m", ", n", ", o", ", p"];
    let count = components.min(names.len());
    put(text, &names[..count])
}

/// A name, and after a colon the names of its components.
#[tactic(auto, using(crate::proofs::Written::colon_behind, std::proofs::Common::append_assoc))]
fn put_name(text: &mut Vec<u8>, name: &str, components: usize) -> Result<(), AllocError>
    ensures { Writes result text.old text.new (with_colon name.now (component_names components)) }
{
    put(text, &[name])?;
    put_component_names(text, components)
}

/// A declaration.
#[tactic(auto, using(std::proofs::Common::append_assoc))]
fn put_collection(
    text: &mut Vec<u8>,
    name: &str,
    components: usize,
    opening: &str,
    closing: &str,
) -> Result<(), AllocError>
    ensures { Writes result text.old text.new (declaration_line (between opening.now closing.now) name.now components) }
{
    put(text, &[opening])?;
    put_name(text, name, components)?;
    put(text, &[closing, ";\n"])
}

/// The declaration of the collection with a number.
fn put_declaration(
    text: &mut Vec<u8>,
    collections: &Numbered<usize>,
    number: usize,
    opening: &str,
    closing: &str,
) -> Result<(), AllocError>
    ensures { Writes result text.old text.new (declaration_at (between opening.now closing.now) (slice_get collections.now number)) }
{
    match collections.name(number) {
        Some(name) => match collections.value(number) {
            Some(components) => put_collection(text, name, *components, opening, closing),
            None => Ok(()),
        },
        None => Ok(()),
    }
}

/// The declarations of collections, their names between these brackets.
pub(crate) fn put_declarations(
    text: &mut Vec<u8>,
    collections: &Numbered<usize>,
    opening: &str,
    closing: &str,
) -> Result<(), AllocError>
    ensures { Writes result text.old text.new (declaration_lines (between opening.now closing.now) (collections_numbered collections.now)) }
{
    for number in 0..collections.len() {
        put_declaration(text, collections, number, opening, closing)?;
    }
    Ok(())
}
