//! Declarations, from the beginning of a text up to the first relation.
ghost use Rattle.std.specs.Prelude.{◌<◌, ◌≤◌, ◌∷◌, [], length, IfOk, IfErr, OnOk};
ghost use Rattle.syntax.specs.Expected.{declarations as some_declarations, relations as some_relations};
ghost use Rattle.syntax.specs.Parsed.{left, Stops};
ghost use Rattle.syntax.specs.Declarations.{components_rest, IsComponentsRest, ReadsEnd, StopsAtEnd, ReadsBehindName, StopsBehindName, ReadsFront, StopsAtFront, IsFrontOrNone, IsPreamble};

use crate::cursor::Cursor;
use crate::name_lists::component_names;
use crate::preamble::Preamble;
use crate::relations::{behind_item, behind_tag};
use crate::stop::Stop;
use crate::{Declaration, Relation, Symbol, Token};
use steptree::{MOST_COLLECTIONS, Name};

/// A declaration, or a relation that begins like one.
#[derive(Clone, Copy)]
pub(crate) enum Front<'a> {
    Item { name: Name<'a>, components: usize },
    Tag { name: Name<'a>, components: usize },
    Relation(Relation<'a>),
}

// How many components are declared, after the colon; the closing bracket and the semicolon are read too.
fn components(cursor: &mut Cursor<'_>, close: Symbol) -> Result<usize, Stop>
    ensures reads { IfOk result (λ count. IsComponentsRest close count (left cursor.old) (left cursor.new)) }
    ensures stops { IfErr result (Stops (components_rest close) (left cursor.old) (left cursor.new)) }
{
    let count = component_names(cursor)?;
    cursor.sign(close)?;
    cursor.sign(Symbol::Semicolon)?;
    Ok(count)
}

// After the closing bracket of a collection that is named at `place`: `Some(0)` if a declaration without components ends
// here, `None` if a relation goes on.
fn without_components(
    cursor: &mut Cursor<'_>,
    place: usize,
    full: bool,
) -> Result<Option<usize>, Stop>
    ensures reads { IfOk result (λ count. ReadsEnd place full count (left cursor.old) (left cursor.new)) }
    ensures fewer { length (left cursor.new) ≤ length (left cursor.old) }
    ensures stops { IfErr result (StopsAtEnd place full (left cursor.old) (left cursor.new)) }
{
    match cursor.front() {
        Token::Symbol(Symbol::Semicolon) => {
            if full {
                return Err(Stop::TooLarge(place));
            }
            cursor.advance();
            Ok(Some(0))
        }
        _ => Ok(None),
    }
}

// How many components are declared, after a name at `place`; `None` if a relation goes on after the closing bracket.
fn behind_name(
    cursor: &mut Cursor<'_>,
    close: Symbol,
    place: usize,
    full: bool,
) -> Result<Option<usize>, Stop>
    ensures reads { IfOk result (λ count. ReadsBehindName close place full count (left cursor.old) (left cursor.new)) }
    ensures fewer { OnOk result (length (left cursor.new) < length (left cursor.old)) }
    ensures stops { IfErr result (StopsBehindName close place full (left cursor.old) (left cursor.new)) }
{
    match cursor.front() {
        Token::Symbol(Symbol::Colon) => {
            if full {
                return Err(Stop::TooLarge(place));
            }
            cursor.advance();
            let count = components(cursor, close)?;
            Ok(Some(count))
        }
        _ => {
            cursor.sign(close)?;
            without_components(cursor, place, full)
        }
    }
}

// A declared collection, or a relation that begins with one, after the bracket at `place`, which `close` closes.
fn collection<'a>(
    cursor: &mut Cursor<'a>,
    close: Symbol,
    place: usize,
    full: bool,
) -> Result<Front<'a>, Stop>
    ensures reads { IfOk result (λ front. ReadsFront close place full front (left cursor.old) (left cursor.new)) }
    ensures stops { IfErr result (StopsAtFront close full (left cursor.old) (left cursor.new)) }
{
    let name = cursor.name()?;
    let Some(components) = behind_name(cursor, close, name.place, full)? else {
        let relation = if close == Symbol::CloseBracket {
            behind_item(cursor, place, name)
        } else {
            behind_tag(cursor, name)
        }?;
        return Ok(Front::Relation(relation));
    };
    if close == Symbol::CloseBracket {
        Ok(Front::Item { name, components })
    } else {
        Ok(Front::Tag { name, components })
    }
}

// A declaration, or a relation that begins like one, with `items` items and `tags` tags declared before.
fn next_front<'a>(
    cursor: &mut Cursor<'a>,
    items: usize,
    tags: usize,
) -> Result<Option<Front<'a>>, Stop>
    ensures reads { IfOk result (λ front. IsFrontOrNone items tags front (left cursor.old) (left cursor.new)) }
    ensures stops { IfErr result (Stops (some_declarations items tags ∷ []) (left cursor.old) (left cursor.new)) }
{
    let place = cursor.place();
    let front = match cursor.front() {
        Token::Symbol(Symbol::OpenBracket) => {
            cursor.advance();
            collection(
                cursor,
                Symbol::CloseBracket,
                place,
                items >= MOST_COLLECTIONS,
            )
        }
        Token::Symbol(Symbol::Less) => {
            cursor.advance();
            collection(cursor, Symbol::Greater, place, tags >= MOST_COLLECTIONS)
        }
        _ => return Ok(None),
    }?;
    Ok(Some(front))
}

/// Declarations from the beginning of a text, and the first relation if it begins like a declaration.
pub(crate) fn declarations<'a>(cursor: &mut Cursor<'a>) -> Result<Preamble<'a>, Stop>
    ensures reads { IfOk result (λ read. IsPreamble (some_relations ∷ []) read (left cursor.old) (left cursor.new)) }
    ensures stops { IfErr result (Stops (some_declarations 0 0 ∷ []) (left cursor.old) (left cursor.new)) }
{
    let mut declarations = Vec::new(cursor.alloc);
    let mut relations = Vec::new(cursor.alloc);
    let mut items = 0;
    let mut tags = 0;
    loop {
        match next_front(cursor, items, tags)? {
            Some(Front::Item { name, components }) => {
                declarations.reserve(1)?;
                declarations.push_reserved(Declaration::Item { name, components });
                items += 1;
            }
            Some(Front::Tag { name, components }) => {
                declarations.reserve(1)?;
                declarations.push_reserved(Declaration::Tag { name, components });
                tags += 1;
            }
            Some(Front::Relation(relation)) => {
                relations.reserve(1)?;
                relations.push_reserved(relation);
                return Ok(Preamble {
                    declarations,
                    relations,
                });
            }
            None => {
                return Ok(Preamble {
                    declarations,
                    relations,
                });
            }
        }
    }
}
