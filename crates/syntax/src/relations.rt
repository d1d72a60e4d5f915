//! Relations between collections, steps and the environment.
ghost use Rattle.std.specs.Prelude.{◌≡◌, ◌∷◌, [], IfOk, IfErr};
ghost use Rattle.syntax.specs.Expected.{relations as some_relations};
ghost use Rattle.syntax.specs.Limits.{name_limits};
ghost use Rattle.syntax.specs.Parsed.{left, named_of, Stops};
ghost use Rattle.syntax.specs.Relations.{last_name_rest, target_rest, target_name, reader_rest, prescribed_step, item_relation_rest, tag_relation_rest, step_relation_rest};
ghost use Rattle.syntax.specs.Relations.{ReadsLastName, ReadsTarget, ReadsBehindItem, ReadsBehindTag, ReadsItemRelation, ReadsTagRelation, ReadsStepRelation, ReadsEnvironmentRelation, IsRelationOrNone};

use crate::cursor::Cursor;
use crate::stop::Stop;
use crate::{Relation, Symbol, Token, Word};
use steptree::Name;

/// What a step or the environment puts.
#[derive(Clone, Copy)]
pub(crate) enum Target<'a> {
    Item(Name<'a>),
    Tag(Name<'a>),
}

// A name at the end of a relation, with its closing bracket and the semicolon.
fn last_name<'a>(cursor: &mut Cursor<'a>, close: Symbol) -> Result<Name<'a>, Stop>
    ensures reads { IfOk result (λ name. ReadsLastName close name (left cursor.old) (left cursor.new)) }
    ensures within { IfOk result (λ name. name_limits (named_of name) ≡ []) }
    ensures stops { IfErr result (Stops (last_name_rest close) (left cursor.old) (left cursor.new)) }
{
    let name = cursor.name()?;
    cursor.sign(close)?;
    cursor.sign(Symbol::Semicolon)?;
    Ok(name)
}

// What is put, from the arrow on.
fn arrow_target<'a>(cursor: &mut Cursor<'a>) -> Result<Target<'a>, Stop>
    ensures reads { IfOk result (λ target. ReadsTarget target (left cursor.old) (left cursor.new)) }
    ensures within { IfOk result (λ target. name_limits (named_of (target_name target)) ≡ []) }
    ensures stops { IfErr result (Stops target_rest (left cursor.old) (left cursor.new)) }
{
    cursor.sign(Symbol::Arrow)?;
    match cursor.front() {
        Token::Symbol(Symbol::OpenBracket) => {
            cursor.advance();
            let item = last_name(cursor, Symbol::CloseBracket)?;
            Ok(Target::Item(item))
        }
        Token::Symbol(Symbol::Less) => {
            cursor.advance();
            let tag = last_name(cursor, Symbol::Greater)?;
            Ok(Target::Tag(tag))
        }
        _ => Err(Stop::Syntax),
    }
}

/// A relation that begins with `item`, whose bracket is at `place`. The cursor is after the item.
pub(crate) fn behind_item<'a>(
    cursor: &mut Cursor<'a>,
    place: usize,
    item: Name<'a>,
) -> Result<Relation<'a>, Stop>
    ensures reads { IfOk result (λ relation. ReadsBehindItem place (named_of item.entry) relation (left cursor.old) (left cursor.new)) }
    ensures stops { IfErr result (Stops reader_rest (left cursor.old) (left cursor.new)) }
{
    cursor.sign(Symbol::Arrow)?;
    match cursor.front() {
        Token::Symbol(Symbol::OpenRound) => {
            cursor.advance();
            let step = last_name(cursor, Symbol::CloseRound)?;
            Ok(Relation::Reads { place, item, step })
        }
        Token::Word(Word::Env) => {
            cursor.advance();
            cursor.sign(Symbol::Semicolon)?;
            Ok(Relation::EnvironmentGets { place, item })
        }
        _ => Err(Stop::Syntax),
    }
}

/// A prescription by `tag`. The cursor is after the tag.
pub(crate) fn behind_tag<'a>(cursor: &mut Cursor<'a>, tag: Name<'a>) -> Result<Relation<'a>, Stop>
    ensures reads { IfOk result (λ relation. ReadsBehindTag (named_of tag.entry) relation (left cursor.old) (left cursor.new)) }
    ensures stops { IfErr result (Stops prescribed_step (left cursor.old) (left cursor.new)) }
{
    cursor.sign(Symbol::DoubleColon)?;
    cursor.sign(Symbol::OpenRound)?;
    let step = last_name(cursor, Symbol::CloseRound)?;
    Ok(Relation::Prescribes { tag, step })
}

// A relation that begins with an item, after the bracket at `place`.
fn item_relation<'a>(cursor: &mut Cursor<'a>, place: usize) -> Result<Relation<'a>, Stop>
    ensures reads { IfOk result (λ relation. ReadsItemRelation place relation (left cursor.old) (left cursor.new)) }
    ensures stops { IfErr result (Stops item_relation_rest (left cursor.old) (left cursor.new)) }
{
    let item = cursor.name()?;
    cursor.sign(Symbol::CloseBracket)?;
    behind_item(cursor, place, item)
}

// A prescription, after its first bracket.
fn tag_relation<'a>(cursor: &mut Cursor<'a>) -> Result<Relation<'a>, Stop>
    ensures reads { IfOk result (λ relation. ReadsTagRelation relation (left cursor.old) (left cursor.new)) }
    ensures stops { IfErr result (Stops tag_relation_rest (left cursor.old) (left cursor.new)) }
{
    let tag = cursor.name()?;
    cursor.sign(Symbol::Greater)?;
    behind_tag(cursor, tag)
}

// What a step puts, after the bracket at `place`.
fn step_relation<'a>(cursor: &mut Cursor<'a>, place: usize) -> Result<Relation<'a>, Stop>
    ensures reads { IfOk result (λ relation. ReadsStepRelation place relation (left cursor.old) (left cursor.new)) }
    ensures stops { IfErr result (Stops step_relation_rest (left cursor.old) (left cursor.new)) }
{
    let step = cursor.name()?;
    cursor.sign(Symbol::CloseRound)?;
    match arrow_target(cursor)? {
        Target::Item(item) => Ok(Relation::PutsItem { place, step, item }),
        Target::Tag(tag) => Ok(Relation::PutsTag { place, step, tag }),
    }
}

// What the environment puts, after the word at `place`.
fn environment_relation<'a>(cursor: &mut Cursor<'a>, place: usize) -> Result<Relation<'a>, Stop>
    ensures reads { IfOk result (λ relation. ReadsEnvironmentRelation place relation (left cursor.old) (left cursor.new)) }
    ensures stops { IfErr result (Stops target_rest (left cursor.old) (left cursor.new)) }
{
    match arrow_target(cursor)? {
        Target::Item(item) => Ok(Relation::EnvironmentPutsItem { place, item }),
        Target::Tag(tag) => Ok(Relation::EnvironmentPutsTag { place, tag }),
    }
}

/// A relation, if one begins with the next token.
pub(crate) fn next_relation<'a>(cursor: &mut Cursor<'a>) -> Result<Option<Relation<'a>>, Stop>
    ensures reads { IfOk result (λ relation. IsRelationOrNone relation (left cursor.old) (left cursor.new)) }
    ensures stops { IfErr result (Stops (some_relations ∷ []) (left cursor.old) (left cursor.new)) }
{
    let place = cursor.place();
    let relation = match cursor.front() {
        Token::Symbol(Symbol::OpenBracket) => {
            cursor.advance();
            item_relation(cursor, place)
        }
        Token::Symbol(Symbol::Less) => {
            cursor.advance();
            tag_relation(cursor)
        }
        Token::Symbol(Symbol::OpenRound) => {
            cursor.advance();
            step_relation(cursor, place)
        }
        Token::Word(Word::Env) => {
            cursor.advance();
            environment_relation(cursor, place)
        }
        _ => return Ok(None),
    }?;
    Ok(Some(relation))
}
