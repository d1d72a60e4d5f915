//! The tokens of a text, in one pass.
ghost use Rattle.std.specs.Prelude.{◌≡◌, ◌<◌, ◌≤◌, ◌++◌, List, ℕ, IfOk, length, drop, get_or, false};
ghost use Rattle.std.specs.List.{AllByRecursion};
ghost use Rattle.syntax.specs.Tokens.{AreTokens, IsWhole, Stands, is_blank, is_digit, is_letter, lexeme_of, spots_of};

use crate::characters::{is_digit, is_letter, leading_blanks, leading_digits, leading_word};
use crate::numbers::number;
use crate::symbols::{double_symbol, single_symbol};
use crate::words::reserved_word;
use crate::{Placed, Token};
use std::alloc::{AllocError, Global};

// At first there is room for one token for each four bytes of the text: for about half of the tokens of most texts.
const BYTES_FOR_A_TOKEN: usize = 4;

/// The tokens of a text, which is ASCII. The first unknown token is the last one.
pub fn tokens<'a>(alloc: Global, text: &'a str) -> Result<Vec<Placed<'a>>, AllocError>
    requires { AllByRecursion (λ byte. byte < 128) text.now }
    ensures { IfOk result (λ tokens. AreTokens 0 text.now (spots_of tokens.items)) }
{
    let mut tokens = Vec::new(alloc);
    tokens.reserve(text.len() / BYTES_FOR_A_TOKEN)?;
    let mut place = 0;
    loop {
        place += leading_blanks(text[place..].as_bytes());
        if place == text.len() {
            return Ok(tokens);
        }
        let (token, length) = first_token(&text[place..]);
        // `push` would call a function for each token.
        if tokens.len() >= tokens.capacity() {
            tokens.reserve(1)?;
        }
        tokens.push_reserved(Placed { token, place });
        place += length;
    }
}

// The first token of a text, and its number of bytes. An unknown one takes the whole text.
fn first_token<'a>(text: &'a str) -> (Token<'a>, usize)
    requires ascii { AllByRecursion (λ byte. byte < 128) text.now }
    requires some { 0 < length text.now }
    requires not_blank { is_blank (get_or text.now 0 0) ≡ false }
    ensures some { 0 < result.1 }
    ensures within { result.1 ≤ length text.now }
    ensures stands { Stands (lexeme_of result.0) text.now (drop result.1 text.now) }
{
    let bytes = text.as_bytes();
    let first = bytes[0];
    if is_letter(first) {
        let length = leading_word(bytes);
        (name_or_word(&text[..length]), length)
    } else if is_digit(first) {
        let length = leading_digits(bytes);
        match number(&text[..length]) {
            Some(value) => (Token::Number(value), length),
            None => (Token::Unknown, text.len()),
        }
    } else {
        symbol_or_unknown(bytes)
    }
}

// The reserved word that this text is, or else the name.
fn name_or_word<'a>(text: &'a str) -> Token<'a>
    ensures { (rest : List ℕ) → IsWhole text.now rest → Stands (lexeme_of result) (text.now ++ rest) rest }
{
    match reserved_word(text) {
        Some(word) => Token::Word(word),
        None => Token::Name(text),
    }
}

// The longest sign at the beginning, and its number of bytes. An unknown character takes all bytes after it.
fn symbol_or_unknown(bytes: &[u8]) -> (Token<'static>, usize)
    requires some { 0 < length bytes.now }
    requires not_blank { is_blank (get_or bytes.now 0 0) ≡ false }
    requires not_letter { is_letter (get_or bytes.now 0 0) ≡ false }
    requires not_digit { is_digit (get_or bytes.now 0 0) ≡ false }
    ensures some { 0 < result.1 }
    ensures within { result.1 ≤ length bytes.now }
    ensures stands { Stands (lexeme_of result.0) bytes.now (drop result.1 bytes.now) }
{
    let first = bytes[0];
    if bytes.len() > 1
        && let Some(symbol) = double_symbol(first, bytes[1])
    {
        return (Token::Symbol(symbol), 2);
    }
    match single_symbol(first) {
        Some(symbol) => (Token::Symbol(symbol), 1),
        None => (Token::Unknown, bytes.len()),
    }
}
