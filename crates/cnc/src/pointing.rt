//! The place of a fault in a text that was read, shown on a terminal.
use cli::LIMIT_PASSED;
use graph::MOST_TEXT;
use script::MOST_BYTES;
use std::io::{Stderr, Write};
use syntax::MOST_NAME_BYTES;

// How many letters of a line are shown before the caret at most, and how many in all.
const MOST_BEFORE: usize = 60;

const MOST_SHOWN: usize = 120;

/// Where a fault is, and what is wrong there: the line and the column, from 1; column 0 if only the line is known, as in a script.
#[derive(Clone, Copy)]
pub(crate) struct Place {
    pub(crate) line: usize,
    pub(crate) column: usize,
    pub(crate) hint: &'static str,
}

/// Prints the line of a place, and below it a caret and what is wrong. The caret is under the column; if that is not known, under the byte that no line may have, or
/// under the first one that is no blank. Of a long line only the part near the caret is printed, with `...` where it was cut. Bytes that no terminal shows are
/// printed as `\t`, `\r` or `\x00`.
pub(crate) fn point(err: &mut Stderr, text: &[u8], place: Place) {
    let Some(line) = line_of(text, place.line) else {
        return;
    };
    let (column, hint) = if place.column == 0 {
        in_script(text, line, place)
    } else {
        in_graph(text, line, place)
    };
    let first = column.saturating_sub(MOST_BEFORE);
    let mut before = begin(err, first);
    let mut cut = false;
    match str::from_utf8(line) {
        Ok(letters) => {
            for (at, letter) in letters.chars().enumerate().skip(first) {
                cut = at - first >= MOST_SHOWN;
                if cut {
                    break;
                }
                let width = put_letter(err, letter);
                if at < column {
                    before = before.saturating_add(width);
                }
            }
        }
        Err(_) => {
            for (at, byte) in line.iter().enumerate().skip(first) {
                cut = at - first >= MOST_SHOWN;
                if cut {
                    break;
                }
                let width = put_byte(err, *byte);
                if at < column {
                    before = before.saturating_add(width);
                }
            }
        }
    }
    let _ = writeln!(err, "{}", if cut { "..." } else { "" });
    for _ in 0..before {
        let _ = write!(err, " ");
    }
    let _ = writeln!(err, "^ {hint}");
}

// Begins a line, of which the first letters may be left out, and returns how many columns that takes.
fn begin(err: &mut Stderr, left_out: usize) -> usize {
    if left_out > 0 {
        let _ = write!(err, "  ...");
        5
    } else {
        let _ = write!(err, "  ");
        2
    }
}

// Prints a letter, and returns how many columns it takes.
fn put_letter(err: &mut Stderr, letter: char) -> usize {
    if let Ok(byte) = u8::try_from(u32::from(letter)) {
        if byte < 128 {
            return put_byte(err, byte);
        }
    }
    let _ = write!(err, "{letter}");
    1
}

// The same for a byte.
fn put_byte(err: &mut Stderr, byte: u8) -> usize {
    match byte {
        b'\t' => {
            let _ = write!(err, "\\t");
            2
        }
        b'\r' => {
            let _ = write!(err, "\\r");
            2
        }
        32..=126 => {
            let _ = err.write_all(&[byte]);
            1
        }
        _ => {
            let _ = write!(err, "\\x{}{}", hex(byte / 16), hex(byte % 16));
            4
        }
    }
}

// A number below 16 as a digit.
fn hex(number: u8) -> char {
    match number {
        0..=9 => char::from(b'0' + number),
        10..=15 => char::from(b'a' + (number - 10)),
        _ => '?',
    }
}

// The line with this number, from 1, if there is one.
fn line_of(text: &[u8], number: usize) -> Option<&[u8]> {
    let mut start: usize = 0;
    let mut line: usize = 1;
    for (at, byte) in text.iter().enumerate() {
        if *byte == b'\n' {
            if line == number {
                return text.get(start..at);
            }
            line = line.saturating_add(1);
            start = at.saturating_add(1);
        }
    }
    if line == number {
        text.get(start..)
    } else {
        None
    }
}

// Where a line of a script is wrong, and why: at a byte that no line has, or where something else stands than a number; else at its first byte that is no blank.
fn in_script(text: &[u8], line: &[u8], place: Place) -> (usize, &'static str) {
    if text.len() > MOST_BYTES {
        return (0, "a script has at most 1,048,576 bytes");
    }
    let mut last = b' ';
    let mut first = None;
    for (at, byte) in line.iter().enumerate() {
        if let Some(hint) = never_in_a_script(*byte) {
            return (at, hint);
        }
        if let Some(hint) = no_number(last, *byte) {
            return (at, hint);
        }
        if *byte != b' ' {
            last = *byte;
            if first.is_none() {
                first = Some(at);
            }
        }
    }
    (first.unwrap_or(0), place.hint)
}

// What is wrong with a byte that no line of a script has, if this is one.
fn never_in_a_script(byte: u8) -> Option<&'static str> {
    match byte {
        b'\r' => Some("this is a carriage return: a line ends with a line feed alone"),
        b'\t' => Some("this is a tab: a blank is a space"),
        b'#' => Some("there are no comments"),
        0..=31 | 127 => Some("this is a control byte"),
        128.. => Some("this byte is not ASCII"),
        _ => None,
    }
}

// What is wrong where this byte follows that one, if an expression or a name stands there in place of a number.
fn no_number(last: u8, byte: u8) -> Option<&'static str> {
    let begins = matches!(last, b':' | b',' | b'=');
    let ends = matches!(last, b'0'..=b'9');
    match byte {
        b'a'..=b'z' | b'A'..=b'Z' | b'_' | b'(' if begins => Some("a number belongs here"),
        b'+' | b'-' | b'*' | b'/' | b'%' if ends => {
            Some("a number belongs here, and no expression")
        }
        _ => None,
    }
}

// Where a graph is wrong, and why. If a limit is passed, what stands there tells which one.
fn in_graph(text: &[u8], line: &[u8], place: Place) -> (usize, &'static str) {
    let column = place.column.saturating_sub(1);
    let rest = line.get(column..).unwrap_or(&[]);
    let hint = match rest.first() {
        _ if place.hint == LIMIT_PASSED => limit_at(text, rest, place.hint),
        Some(b'#') => "there are no comments",
        Some(b'&' | b'|') => "comparisons are numbers: multiply or add them",
        _ => place.hint,
    };
    (column, hint)
}

// Which limit is passed where the rest of a line begins.
fn limit_at(text: &[u8], rest: &[u8], hint: &'static str) -> &'static str {
    if text.len() > MOST_TEXT {
        return "a graph has at most 65,536 bytes";
    }
    let name = rest.iter().take_while(|byte| is_of_name(**byte)).count();
    match rest.first() {
        Some(b'{') => "at most 16 braces may be open",
        Some(b'(') => "at most 64 brackets may be open, and 64 operations stand one in another",
        Some(b'0'..=b'9' | b'-') => "at most 64 operations stand one in another",
        Some(_) if name > MOST_NAME_BYTES => "a name has at most 32 bytes",
        Some(_) if name > 0 => {
            "at most 64 collections of a kind, steps or names of a step, and 4 components"
        }
        _ => hint,
    }
}

// Whether a name may have this byte.
fn is_of_name(byte: u8) -> bool {
    matches!(byte, b'a'..=b'z' | b'A'..=b'Z' | b'0'..=b'9' | b'_')
}
