//! What a line asks for, by the names and numbers that are written there.
ghost use Rattle.script.specs.Forms.{IsName, run};
ghost use Rattle.script.specs.Lexemes.{AreSound, IsSoundCursor, left, lexemes_of};
ghost use Rattle.script.specs.Requests.{Answers, AnswersLast, AnswersNamed, AnswersPut, ended, form_by, form_of, get_of, named_of, put_of, tag_of};

use crate::cursor::Cursor;
use crate::key::{WrittenKey, written_key};
use crate::token::Token;
use syntax::reserved_word;

/// What a line asks for.
#[derive(Clone, Copy)]
pub(crate) enum Request<'a> {
    /// To put an item: the name of its collection, its key and its value, or `None` if the value does not fit in 64 bits.
    Put(&'a str, WrittenKey, Option<i64>),
    /// To put a tag.
    Tag(&'a str, WrittenKey),
    /// To get an item.
    Get(&'a str, WrittenKey),
    /// To run the steps.
    Run,
}

/// A name with a key in brackets.
#[derive(Clone, Copy)]
pub(crate) struct NamedKey<'a> {
    pub(crate) name: &'a str,
    pub(crate) key: WrittenKey,
}

/// What these tokens ask for, if they have one of the forms.
pub(crate) fn requested<'a>(tokens: &[Token<'a>]) -> Option<Request<'a>>
    requires { AreSound tokens.now }
    ensures { Answers result (form_of (lexemes_of tokens.now)) }
{
    let mut cursor = Cursor { tokens };
    match cursor.word() {
        Some(verb) => by_verb(verb, &mut cursor),
        None => None,
    }
}

// The request, by the first word and the tokens after it.
fn by_verb<'a>(verb: &str, cursor: &mut Cursor<'_, 'a>) -> Option<Request<'a>>
    requires { IsSoundCursor cursor.old }
    ensures { Answers result (form_by verb.now (left cursor.old)) }
{
    match verb {
        "put" => put(cursor),
        "tag" => tag(cursor),
        "get" => get(cursor),
        "run" => steps(cursor),
        _ => None,
    }
}

fn put<'a>(cursor: &mut Cursor<'_, 'a>) -> Option<Request<'a>>
    requires { IsSoundCursor cursor.old }
    ensures { Answers result (put_of (left cursor.old)) }
{
    match named_key(cursor, b'[', b']') {
        Some(named) => put_named(named, cursor),
        None => None,
    }
}

// A put, after its name and key were read.
fn put_named<'a>(named: NamedKey<'a>, cursor: &mut Cursor<'_, 'a>) -> Option<Request<'a>>
    requires sound { IsSoundCursor cursor.old }
    requires kept { IsName named.name.now }
    ensures { AnswersPut named.entry (left cursor.old) result }
{
    if !cursor.takes(b'=') {
        return None;
    }
    match cursor.number() {
        Some(value) => {
            if cursor.is_at_end() {
                Some(Request::Put(named.name, named.key, value))
            } else {
                None
            }
        }
        None => None,
    }
}

fn tag<'a>(cursor: &mut Cursor<'_, 'a>) -> Option<Request<'a>>
    requires { IsSoundCursor cursor.old }
    ensures { Answers result (tag_of (left cursor.old)) }
{
    match last_key(cursor, b'<', b'>') {
        Some(named) => Some(Request::Tag(named.name, named.key)),
        None => None,
    }
}

fn get<'a>(cursor: &mut Cursor<'_, 'a>) -> Option<Request<'a>>
    requires { IsSoundCursor cursor.old }
    ensures { Answers result (get_of (left cursor.old)) }
{
    match last_key(cursor, b'[', b']') {
        Some(named) => Some(Request::Get(named.name, named.key)),
        None => None,
    }
}

// A name and a key, between these brackets, after which no token is left.
fn last_key<'a>(cursor: &mut Cursor<'_, 'a>, opening: u8, closing: u8) -> Option<NamedKey<'a>>
    requires { IsSoundCursor cursor.old }
    ensures { AnswersLast result (named_of opening closing (left cursor.old)) }
{
    match named_key(cursor, opening, closing) {
        Some(named) => {
            if cursor.is_at_end() {
                Some(named)
            } else {
                None
            }
        }
        None => None,
    }
}

fn steps<'a>(cursor: &Cursor<'_, 'a>) -> Option<Request<'a>>
    ensures { Answers result (ended run (left cursor.now)) }
{
    if cursor.is_at_end() {
        Some(Request::Run)
    } else {
        None
    }
}

// A name that is not reserved and a key, between these brackets.
fn named_key<'a>(cursor: &mut Cursor<'_, 'a>, opening: u8, closing: u8) -> Option<NamedKey<'a>>
    requires { IsSoundCursor cursor.old }
    ensures named { AnswersNamed result (named_of opening closing (left cursor.old)) (left cursor.new) }
    ensures sound { IsSoundCursor cursor.new }
{
    if !cursor.takes(opening) {
        return None;
    }
    match cursor.word() {
        Some(name) => {
            if reserved_word(name).is_some() {
                return None;
            }
            match written_key(cursor, closing) {
                Some(key) => Some(NamedKey { name, key }),
                None => None,
            }
        }
        None => None,
    }
}
