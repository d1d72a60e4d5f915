//! Statements without blocks.
ghost use Rattle.std.specs.Prelude.{◌∷◌, [], IfOk, IfErr};
ghost use Rattle.syntax.specs.Expected.{get_rest, item_rest, put_target, tag_rest};
ghost use Rattle.syntax.specs.Parsed.{left, Stops};
ghost use Rattle.syntax.specs.declared.token.Symbol.TheVariants as sign;
ghost use Rattle.syntax.specs.Spelled.{a_sign};
ghost use Rattle.syntax.specs.Blocks.{assignment_rest, IsValueRead, IsGetRead, IsPutRead};

use crate::cursor::Cursor;
use crate::expressions::value;
use crate::keys::{NamedKey, item, tag};
use crate::stop::Stop;
use crate::{Symbol, Token};
use steptree::{Name, NamedSimple, Simple};

/// An assignment, after its name.
pub(crate) fn assignment<'a>(
    cursor: &mut Cursor<'a>,
    variable: Name<'a>,
) -> Result<NamedSimple<'a>, Stop>
    ensures reads { IfOk result (λ statement. IsValueRead statement variable.entry (left cursor.old) (left cursor.new)) }
    ensures stops { IfErr result (Stops assignment_rest (left cursor.old) (left cursor.new)) }
{
    cursor.sign(Symbol::Assign)?;
    let value = value(cursor)?;
    cursor.sign(Symbol::Semicolon)?;
    Ok(Simple::Assign { variable, value })
}

/// A read of an item, after its `get`.
pub(crate) fn get<'a>(cursor: &mut Cursor<'a>) -> Result<NamedSimple<'a>, Stop>
    ensures reads { IfOk result (λ statement. IsGetRead statement (left cursor.old) (left cursor.new)) }
    ensures stops { IfErr result (Stops get_rest (left cursor.old) (left cursor.new)) }
{
    let variable = cursor.name()?;
    cursor.sign(Symbol::Assign)?;
    cursor.sign(Symbol::OpenBracket)?;
    let key = item(cursor)?;
    let NamedKey {
        collection,
        components,
    } = key;
    cursor.sign(Symbol::Semicolon)?;
    Ok(Simple::Get {
        variable,
        collection,
        components,
    })
}

// An item and its value, after `put [`.
fn put_item<'a>(cursor: &mut Cursor<'a>) -> Result<NamedSimple<'a>, Stop>
    ensures reads { IfOk result (λ statement. IsPutRead item_rest (a_sign sign.OpenBracket) statement (left cursor.old) (left cursor.new)) }
    ensures stops { IfErr result (Stops item_rest (left cursor.old) (left cursor.new)) }
{
    let key = item(cursor)?;
    let NamedKey {
        collection,
        components,
    } = key;
    cursor.sign(Symbol::Assign)?;
    let value = value(cursor)?;
    cursor.sign(Symbol::Semicolon)?;
    Ok(Simple::PutItem {
        collection,
        components,
        value,
    })
}

// A tag, after `put <`.
fn put_tag<'a>(cursor: &mut Cursor<'a>) -> Result<NamedSimple<'a>, Stop>
    ensures reads { IfOk result (λ statement. IsPutRead tag_rest (a_sign sign.Less) statement (left cursor.old) (left cursor.new)) }
    ensures stops { IfErr result (Stops tag_rest (left cursor.old) (left cursor.new)) }
{
    let key = tag(cursor)?;
    let NamedKey {
        collection,
        components,
    } = key;
    cursor.sign(Symbol::Semicolon)?;
    Ok(Simple::PutTag {
        collection,
        components,
    })
}

/// A put of an item or a tag, after its `put`.
pub(crate) fn put<'a>(cursor: &mut Cursor<'a>) -> Result<NamedSimple<'a>, Stop>
    ensures reads { IfOk result (λ statement. IsPutRead (put_target ∷ []) [] statement (left cursor.old) (left cursor.new)) }
    ensures stops { IfErr result (Stops (put_target ∷ []) (left cursor.old) (left cursor.new)) }
{
    match cursor.front() {
        Token::Symbol(Symbol::OpenBracket) => {
            cursor.advance();
            put_item(cursor)
        }
        Token::Symbol(Symbol::Less) => {
            cursor.advance();
            put_tag(cursor)
        }
        _ => Err(Stop::Syntax),
    }
}
