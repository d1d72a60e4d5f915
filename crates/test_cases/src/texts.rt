//! How texts are written: `\n`, `\r`, `\t`, `\f`, `\0` and `\\` are characters, and `~64 +1~` is `+1` 64 times. In the
//! repeated part `#` is the number of the repetition, from 0.
use std::alloc::{AllocError, Global};

/// The text of these lines, without a line feed at its end.
pub fn text_of(alloc: Global, lines: &str) -> Result<String, AllocError> {
    lines_of(alloc, lines.strip_suffix('\n').unwrap_or(lines))
}

/// The text of these lines.
pub fn lines_of(alloc: Global, lines: &str) -> Result<String, AllocError> {
    let mut text = String::new(alloc);
    for (place, piece) in lines.split('~').enumerate() {
        if place % 2 == 0 {
            push_escaped(&mut text, piece)?;
        } else {
            push_repeated(&mut text, piece)?;
        }
    }
    Ok(text)
}

// Writes a part as often as the number before it says. If there is no number, all stays as it is, between its `~`.
fn push_repeated(text: &mut String, piece: &str) -> Result<(), AllocError> {
    let (count, part) = piece.split_once(' ').unwrap_or((piece, ""));
    match count.parse::<u32>() {
        Ok(count) => {
            for turn in 0..count {
                push_turn(text, part, turn)?;
            }
            Ok(())
        }
        Err(_) => write!(text, "~{piece}~"),
    }
}

// Writes the part, with the number of the repetition.
fn push_turn(text: &mut String, part: &str, turn: u32) -> Result<(), AllocError> {
    for (place, piece) in part.split('#').enumerate() {
        if place > 0 {
            write!(text, "{turn}")?;
        }
        text.push_str(piece)?;
    }
    Ok(())
}

fn push_escaped(text: &mut String, piece: &str) -> Result<(), AllocError> {
    let mut is_escaped = false;
    for letter in piece.chars() {
        if is_escaped {
            text.push(meant(letter))?;
        } else if letter != '\\' {
            text.push(letter)?;
        }
        is_escaped = letter == '\\' && !is_escaped;
    }
    Ok(())
}

// What a letter after a `\` stands for.
fn meant(letter: char) -> char {
    match letter {
        'n' => '\n',
        'r' => '\r',
        't' => '\t',
        'f' => '\u{c}',
        '0' => '\0',
        other => other,
    }
}
