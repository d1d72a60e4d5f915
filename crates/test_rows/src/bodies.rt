//! Instances of a graph's steps: `run NAME`, where NAME is the name of the graph's text, and below it a line for each
//! instance: its step, its key and, after `<-`, the values of the items that it gets. The result of each is a line: what
//! it needs; and what it read and gave, or its fault, or where it is parked if the values end before it does.
use crate::telling::{tell_key, told_of};
use graph::{Graph, parse};
use std::alloc::{AllocError, Global};
use steplang::{Checked, Parked, Run, Turn};
use terms::{Addr, Inst, Key, MAX_COMPONENTS, Put, StepCollection};

/// The results of these instances, a line for each.
pub(crate) fn answer(alloc: Global, text: &[u8], lines: &str) -> Result<String, AllocError> {
    let mut out = String::new(alloc);
    match parse(alloc, text) {
        Ok(graph) => tell_runs(alloc, &graph, lines, &mut out)?,
        Err(fault) => writeln!(out, "{fault}")?,
    }
    Ok(out)
}

fn tell_runs(
    alloc: Global,
    graph: &Graph,
    lines: &str,
    out: &mut String,
) -> Result<(), AllocError> {
    for line in lines.lines() {
        tell_line(alloc, graph, line, out)?;
        out.push_str("\n")?;
    }
    Ok(())
}

fn tell_line(alloc: Global, graph: &Graph, line: &str, out: &mut String) -> Result<(), AllocError> {
    let (instance, values) = line.split_once("<-").unwrap_or((line, ""));
    let (name, key) = instance.split_once(' ').unwrap_or((instance, ""));
    match graph.step_number(name) {
        Some(step) => tell_step(alloc, graph, step, key, values, out),
        None => no_such(out),
    }
}

fn tell_step(
    alloc: Global,
    graph: &Graph,
    step: StepCollection,
    key: &str,
    values: &str,
    out: &mut String,
) -> Result<(), AllocError> {
    let Some(key) = numbers(alloc, key)? else {
        return no_such(out);
    };
    match numbers(alloc, values)? {
        Some(values) => tell_run(alloc, graph, step, &key, &values, out),
        None => no_such(out),
    }
}

fn no_such(out: &mut String) -> Result<(), AllocError> {
    out.push_str("no such step, or no number")
}

// The numbers in a text, with blanks between them, if each word is a number.
fn numbers(alloc: Global, text: &str) -> Result<Option<Vec<i64>>, AllocError> {
    let mut numbers = Vec::new(alloc);
    if push_numbers(text, &mut numbers)? {
        Ok(Some(numbers))
    } else {
        Ok(None)
    }
}

// Appends the numbers in a text, and returns whether each of its words is one.
fn push_numbers(text: &str, numbers: &mut Vec<i64>) -> Result<bool, AllocError> {
    for word in text.split_whitespace() {
        match word.parse::<i64>() {
            Ok(number) => numbers.push(number)?,
            Err(_) => return Ok(false),
        }
    }
    Ok(true)
}

fn tell_run(
    alloc: Global,
    graph: &Graph,
    step: StepCollection,
    key: &[i64],
    values: &[i64],
    out: &mut String,
) -> Result<(), AllocError> {
    let Some(checked) = graph.body(step) else {
        return out.push_str("no body");
    };
    if key.len() != checked.parameters || key.len() > MAX_COMPONENTS {
        return out.push_str("another number of components");
    }
    let instance = Inst {
        collection: step,
        key: Key::new(key),
    };
    let mut run = Run::start(alloc, checked, instance)?;
    let turn = run.advance(None);
    tell_next(graph, "", turn, out)?;
    go_on(graph, run, values, out)
}

// Gives the run the values that it needs, in order. If they end before it does, it is parked.
fn go_on(
    graph: &Graph,
    mut run: Run<'_>,
    values: &[i64],
    out: &mut String,
) -> Result<(), AllocError> {
    for value in values {
        if run.pending().is_none() {
            return out.push_str(", a value is left");
        }
        let turn = run.advance(Some(*value));
        tell_next(graph, ", ", turn, out)?;
    }
    if run.pending().is_some() {
        let parked = run.park();
        tell_parked(graph, &parked, out)
    } else {
        Ok(())
    }
}

fn tell_parked(graph: &Graph, parked: &Parked<'_>, out: &mut String) -> Result<(), AllocError> {
    out.push_str(", parked at ")?;
    tell_address(graph, &parked.address(), out)?;
    let instance = parked.instance();
    write!(out, " behind {} reads of", parked.reads().len())?;
    tell_key(out, &instance.key)
}

// Writes what comes before a turn, and the turn, unless memory was refused.
fn tell_next(
    graph: &Graph,
    before: &str,
    turn: Result<Turn<'_>, AllocError>,
    out: &mut String,
) -> Result<(), AllocError> {
    match turn {
        Ok(turn) => {
            out.push_str(before)?;
            tell_turn(graph, &turn, out)
        }
        Err(error) => Err(error),
    }
}

fn tell_turn(graph: &Graph, turn: &Turn<'_>, out: &mut String) -> Result<(), AllocError> {
    match turn {
        Turn::Need(address) => {
            out.push_str("needs ")?;
            tell_address(graph, address, out)
        }
        Turn::Gave(given) => {
            tell_reads(graph, given.reads.as_slice(), out)?;
            tell_puts(graph, given.puts().as_slice(), out)
        }
        Turn::Fault(bad) => {
            tell_reads(graph, bad.reads.as_slice(), out)?;
            write!(out, "fault {}", bad.kind().number())
        }
    }
}

fn tell_reads(graph: &Graph, reads: &[(Addr, i64)], out: &mut String) -> Result<(), AllocError> {
    for (address, value) in reads {
        out.push_str("read ")?;
        tell_address(graph, address, out)?;
        write!(out, " = {value}, ")?;
    }
    Ok(())
}

fn tell_puts(graph: &Graph, puts: &[Put], out: &mut String) -> Result<(), AllocError> {
    out.push_str("puts")?;
    let told = told_of(puts);
    if told.len() < puts.len() {
        write!(out, " {}, the last", puts.len())?;
    }
    for put in told {
        out.push_str(" ")?;
        tell_put(graph, put, out)?;
    }
    Ok(())
}

fn tell_put(graph: &Graph, put: &Put, out: &mut String) -> Result<(), AllocError> {
    match put {
        Put::Item(address, value) => {
            tell_address(graph, address, out)?;
            write!(out, " = {value}")
        }
        Put::Tag(tag) => {
            write!(out, "<{}", graph.tag_name(tag.collection).unwrap_or("none"))?;
            tell_key(out, &tag.key)?;
            out.push_str(">")
        }
    }
}

pub(crate) fn tell_address(
    graph: &Graph,
    address: &Addr,
    out: &mut String,
) -> Result<(), AllocError> {
    write!(
        out,
        "[{}",
        graph.item_name(address.collection).unwrap_or("none")
    )?;
    tell_key(out, &address.key)?;
    out.push_str("]")
}
