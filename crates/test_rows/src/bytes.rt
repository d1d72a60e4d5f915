//! How bytes are written, as words:
//!
//! - `01ff` are bytes by their digits, and `00*32` is the same byte 32 times
//! - `u16:5`, `u32:5`, `u64:5` and `i64:-5` are numbers, the lowest byte first
//! - `NAME` is what the file has given this name, and `NAME..10` its first 10 bytes
//! - `40[ .. ]` are the words inside, 40 times; there `turn` is the number of the repetition, from 0, as an `i64`
use std::alloc::{AllocError, Global};
use test_cases::Names;

/// The bytes that these words stand for, if each of them is such a word.
pub(crate) fn bytes_of(
    alloc: Global,
    names: &Names,
    text: &str,
) -> Result<Option<Vec<u8>>, AllocError> {
    let mut bytes = Vec::new(alloc);
    if push_text(alloc, names, text, &mut bytes)? {
        Ok(Some(bytes))
    } else {
        Ok(None)
    }
}

// Appends the bytes of these words and of those in brackets, and returns whether each of them is such a word.
fn push_text(
    alloc: Global,
    names: &Names,
    text: &str,
    bytes: &mut Vec<u8>,
) -> Result<bool, AllocError> {
    let mut rest = text;
    for _ in 0..text.len() {
        let Some((front, behind)) = rest.split_once('[') else {
            break;
        };
        let (within, after) = behind.split_once(']').unwrap_or((behind, ""));
        if !push_turns(alloc, names, front, within, bytes)? {
            return Ok(false);
        }
        rest = after;
    }
    push_words(alloc, names, rest, 0, bytes)
}

// Appends the bytes of the words in front of a bracket, whose last is a number, and of those in it, as often as that
// number says.
fn push_turns(
    alloc: Global,
    names: &Names,
    front: &str,
    within: &str,
    bytes: &mut Vec<u8>,
) -> Result<bool, AllocError> {
    let (words, count) = front
        .rsplit_once(|letter: char| letter.is_whitespace())
        .unwrap_or(("", front));
    if !push_words(alloc, names, words, 0, bytes)? {
        return Ok(false);
    }
    let Ok(turns) = count.trim().parse::<u32>() else {
        return Ok(false);
    };
    for turn in 0..turns {
        if !push_words(alloc, names, within, turn, bytes)? {
            return Ok(false);
        }
    }
    Ok(true)
}

// Appends the bytes of these words, and returns whether each of them is such a word.
fn push_words(
    alloc: Global,
    names: &Names,
    words: &str,
    turn: u32,
    bytes: &mut Vec<u8>,
) -> Result<bool, AllocError> {
    for word in words.split_whitespace() {
        if !push_word(alloc, names, word, turn, bytes)? {
            return Ok(false);
        }
    }
    Ok(true)
}

fn push_word(
    alloc: Global,
    names: &Names,
    word: &str,
    turn: u32,
    bytes: &mut Vec<u8>,
) -> Result<bool, AllocError> {
    if word == "turn" {
        return push_times(&i64::from(turn).to_le_bytes(), 1, bytes);
    }
    match word.split_once(':') {
        Some((kind, number)) => push_number(kind, number, bytes),
        None => push_digits(alloc, names, word, bytes),
    }
}

fn push_number(kind: &str, number: &str, bytes: &mut Vec<u8>) -> Result<bool, AllocError> {
    match kind {
        "u16" => match number.parse::<u16>() {
            Ok(number) => push_times(&number.to_le_bytes(), 1, bytes),
            Err(_) => Ok(false),
        },
        "u32" => match number.parse::<u32>() {
            Ok(number) => push_times(&number.to_le_bytes(), 1, bytes),
            Err(_) => Ok(false),
        },
        "u64" => match number.parse::<u64>() {
            Ok(number) => push_times(&number.to_le_bytes(), 1, bytes),
            Err(_) => Ok(false),
        },
        "i64" => match number.parse::<i64>() {
            Ok(number) => push_times(&number.to_le_bytes(), 1, bytes),
            Err(_) => Ok(false),
        },
        _ => Ok(false),
    }
}

// What has this name, or a prefix of it.
fn push_named(names: &Names, word: &str, bytes: &mut Vec<u8>) -> Result<bool, AllocError> {
    let (name, end) = word.split_once("..").unwrap_or((word, ""));
    let Some(named) = names.bytes(name) else {
        return Ok(false);
    };
    if end.is_empty() {
        return push_times(named, 1, bytes);
    }
    match end.parse::<usize>() {
        Ok(count) if count <= named.len() => push_times(&named[..count], 1, bytes),
        _ => Ok(false),
    }
}

// A name, or digits.
fn push_digits(
    alloc: Global,
    names: &Names,
    word: &str,
    bytes: &mut Vec<u8>,
) -> Result<bool, AllocError> {
    if word.starts_with(|letter: char| letter.is_ascii_uppercase()) {
        return push_named(names, word, bytes);
    }
    let (digits, count) = word.split_once('*').unwrap_or((word, "1"));
    let Ok(count) = count.parse::<u32>() else {
        return Ok(false);
    };
    match hex::decode(alloc, digits) {
        Ok(part) => push_times(&part, count, bytes),
        Err(_) => Ok(false),
    }
}

// Appends a part this many times.
fn push_times(part: &[u8], count: u32, bytes: &mut Vec<u8>) -> Result<bool, AllocError> {
    for _ in 0..count {
        bytes.extend_from_slice(part)?;
    }
    Ok(true)
}
