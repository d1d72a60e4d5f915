//! Stories: a line for each call. A story is told once for each of the numbers, which `$` stands for, or once if there
//! are none. The result has a line for each telling, with the results of its calls.
use std::alloc::{AllocError, Global};
use test_cases::Names;

/// What the calls of a story act on.
pub(crate) trait World: Sized + Drop {
    /// The world at the beginning of each story.
    fn begin(alloc: Global) -> Self;

    /// Does one call, and writes its result.
    fn take(
        &mut self,
        alloc: Global,
        names: &Names,
        number: &str,
        line: &str,
        told: &mut String,
    ) -> Result<(), AllocError>;
}

/// The results of the calls of a story.
pub(crate) fn answer<W: World>(
    alloc: Global,
    names: &Names,
    numbers: &str,
    lines: &str,
) -> Result<String, AllocError> {
    let mut out = String::new(alloc);
    tell_all::<W>(alloc, names, numbers, lines, &mut out)?;
    Ok(out)
}

// Tells a story once for each of the numbers.
fn tell_all<W: World>(
    alloc: Global,
    names: &Names,
    numbers: &str,
    lines: &str,
    out: &mut String,
) -> Result<(), AllocError> {
    if numbers.is_empty() {
        tell_line::<W>(alloc, names, "0", lines, out)?;
    }
    for number in numbers.split_whitespace() {
        write!(out, "{number}: ")?;
        tell_line::<W>(alloc, names, number, lines, out)?;
    }
    Ok(())
}

// Tells a story from its beginning.
fn tell_line<W: World>(
    alloc: Global,
    names: &Names,
    number: &str,
    lines: &str,
    out: &mut String,
) -> Result<(), AllocError> {
    tell(alloc, names, &mut W::begin(alloc), number, lines, out)?;
    out.push_str("\n")
}

/// Continues a story, and writes the results of its calls.
pub(crate) fn tell<W: World>(
    alloc: Global,
    names: &Names,
    world: &mut W,
    number: &str,
    lines: &str,
    out: &mut String,
) -> Result<(), AllocError> {
    let mut is_first = true;
    for line in lines.lines() {
        if tell_call(alloc, names, world, number, line, is_first, out)? {
            is_first = false;
        }
    }
    Ok(())
}

// Does one call, and writes its result, if it has one. Returns whether it has.
fn tell_call<W: World>(
    alloc: Global,
    names: &Names,
    world: &mut W,
    number: &str,
    line: &str,
    is_first: bool,
    out: &mut String,
) -> Result<bool, AllocError> {
    let mut told = String::new(alloc);
    world.take(alloc, names, number, line, &mut told)?;
    if told.is_empty() {
        return Ok(false);
    }
    push_result(out, is_first, told.as_str())?;
    Ok(true)
}

// Writes a result; if it is not the first, a semicolon before it.
fn push_result(out: &mut String, is_first: bool, told: &str) -> Result<(), AllocError> {
    if !is_first {
        out.push_str("; ")?;
    }
    out.push_str(told)
}
