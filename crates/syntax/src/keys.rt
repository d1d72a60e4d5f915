//! Keys of items and tags.
ghost use Rattle.std.specs.Prelude.{◌<◌, ◌∷◌, [], length, IfOk, IfErr, OnOk};
ghost use Rattle.syntax.specs.Expected.{components as some_components, item as item_kind, tag as tag_kind, key_rest};
ghost use Rattle.syntax.specs.Parsed.{left, Stops};
ghost use Rattle.syntax.specs.Keys.{AreComponents, IsKeyRest, ClosedBy};

use crate::Symbol;
use crate::cursor::Cursor;
use crate::expressions::expression;
use crate::stop::Stop;
use steptree::{Name, NamedExpression};

/// An item or a tag with names: its collection, and the expressions of its components.
#[derive(Drop)]
pub(crate) struct NamedKey<'a> {
    pub(crate) collection: Name<'a>,
    pub(crate) components: Vec<NamedExpression<'a>>,
}

// The components after the name of a key: none, or a colon and at least one.
fn components<'a>(cursor: &mut Cursor<'a>) -> Result<Vec<NamedExpression<'a>>, Stop>
    ensures reads { IfOk result (λ expressions. AreComponents expressions.items (left cursor.old) (left cursor.new)) }
    ensures stops { IfErr result (Stops (some_components ∷ []) (left cursor.old) (left cursor.new)) }
{
    let mut components = Vec::new(cursor.alloc);
    if !cursor.takes(Symbol::Colon) {
        return Ok(components);
    }
    loop {
        let component = expression(cursor, false)?;
        components.reserve(1)?;
        components.push_reserved(component);
        if !cursor.takes(Symbol::Comma) {
            return Ok(components);
        }
    }
}

// A key after its opening bracket, with the closing bracket `close`.
fn key<'a>(cursor: &mut Cursor<'a>, close: Symbol) -> Result<NamedKey<'a>, Stop>
    ensures reads { IfOk result (λ key. ClosedBy close (λ kind. IsKeyRest kind key (left cursor.old) (left cursor.new))) }
    ensures fewer { OnOk result (length (left cursor.new) < length (left cursor.old)) }
    ensures stops { IfErr result (λ stop. ClosedBy close (λ kind. Stops (key_rest kind) (left cursor.old) (left cursor.new) stop)) }
{
    let collection = cursor.name()?;
    let components = components(cursor)?;
    cursor.sign(close)?;
    Ok(NamedKey {
        collection,
        components,
    })
}

/// An item, after its opening bracket.
pub(crate) fn item<'a>(cursor: &mut Cursor<'a>) -> Result<NamedKey<'a>, Stop>
    ensures reads { IfOk result (λ key. IsKeyRest item_kind key (left cursor.old) (left cursor.new)) }
    ensures stops { IfErr result (Stops (key_rest item_kind) (left cursor.old) (left cursor.new)) }
{
    key(cursor, Symbol::CloseBracket)
}

/// A tag, after its opening bracket.
pub(crate) fn tag<'a>(cursor: &mut Cursor<'a>) -> Result<NamedKey<'a>, Stop>
    ensures reads { IfOk result (λ key. IsKeyRest tag_kind key (left cursor.old) (left cursor.new)) }
    ensures stops { IfErr result (Stops (key_rest tag_kind) (left cursor.old) (left cursor.new)) }
{
    key(cursor, Symbol::Greater)
}
