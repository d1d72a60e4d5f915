//! The tokens of a line, in one pass.
ghost use Rattle.std.specs.Prelude.{◌≡◌, ◌<◌, ◌≤◌, length, drop, get_or, false, OnOk};
ghost use Rattle.std.specs.Str.{IsAscii};
ghost use Rattle.script.specs.Lexemes.{AreSound, IsSound, lexeme_of, lexemes_of};
ghost use Rattle.script.specs.Tokens.{AreTokens, IsOther, Stands, is_space};

use crate::characters::{is_sign, leading_spaces};
use crate::token::Token;
use std::alloc::AllocError;
use syntax::{is_digit, is_letter, leading_digits, leading_word};

/// Replaces `tokens` by the tokens of a line, which is ASCII, up to the first unknown one.
pub(crate) fn tokenize<'a>(tokens: &mut Vec<Token<'a>>, line: &'a str) -> Result<(), AllocError>
    requires ascii { IsAscii line.now }
    ensures tokens { OnOk result (AreTokens line.now (lexemes_of tokens.new.items)) }
    ensures sound { OnOk result (AreSound tokens.new.items) }
{
    tokens.clear();
    let mut place = 0;
    loop {
        place += leading_spaces(line[place..].as_bytes());
        if place == line.len() {
            return Ok(());
        }
        let (token, length) = first_token(&line[place..]);
        tokens.push(token)?;
        place += length;
    }
}

// The first token of a text, and its number of bytes. An unknown token takes all bytes.
fn first_token<'a>(text: &'a str) -> (Token<'a>, usize)
    requires ascii { IsAscii text.now }
    requires some { 0 < length text.now }
    requires not_space { is_space (get_or text.now 0 0) ≡ false }
    ensures some { 0 < result.1 }
    ensures within { result.1 ≤ length text.now }
    ensures stands { Stands (lexeme_of result.0) text.now (drop result.1 text.now) }
    ensures sound { IsSound result.0 }
{
    let bytes = text.as_bytes();
    let first = bytes[0];
    if is_letter(first) {
        let length = leading_word(bytes);
        (Token::Word(&text[..length]), length)
    } else if is_digit(first) {
        let length = leading_digits(bytes);
        (Token::Number(&text[..length]), length)
    } else if is_sign(first) {
        (Token::Sign(first), 1)
    } else {
        negative_or_unknown(text)
    }
}

// The negative number at the front, and its number of bytes. An unknown token takes all bytes.
fn negative_or_unknown<'a>(text: &'a str) -> (Token<'a>, usize)
    requires ascii { IsAscii text.now }
    requires some { 0 < length text.now }
    requires not_space { is_space (get_or text.now 0 0) ≡ false }
    requires other { IsOther (get_or text.now 0 0) }
    ensures length { (0 < result.1) × (result.1 ≤ length text.now) }
    ensures stands { Stands (lexeme_of result.0) text.now (drop result.1 text.now) }
    ensures sound { IsSound result.0 }
{
    let bytes = text.as_bytes();
    if bytes[0] == b'-' {
        let digits = leading_digits(&bytes[1..]);
        if digits > 0 {
            return (Token::Number(&text[..digits + 1]), digits + 1);
        }
    }
    (Token::Unknown, text.len())
}
