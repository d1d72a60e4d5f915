//! Stories of a store in memory: `machine NAME CHOOSER CHOOSER..`, where NAME is the name of the graph's text, and below
//! it a line for each call. The story is told once for each chooser (`choosers`). The result is that of one telling, if
//! all are the same.
//!
//! Calls of the environment: `tag <n: 2>`, `put [fib: 0] = 0`, `get [fib: 1]`. `run` lets ready instances run, one after
//! another, until none is ready or there is a fault. `report ADDRESS; ADDRESS..` writes what is at these addresses, and
//! the fault. `reopen` lists the store as an image and makes it anew from that.
ghost use Rattle.std.specs.Prelude.{◌≡◌};
ghost use Rattle.terms.specs.declared.event.Event.TheVariants.{EnvItem, EnvTag};
ghost use Rattle.machine.specs.Legal.{IsLegal};
ghost use Rattle.machine.specs.Machine.{facts};

use crate::bodies::tell_address;
use crate::choosers::Chooser;
use crate::named::{address_of, tag_of, tell_named};
use crate::reopening::reopened;
use crate::running::run_ready;
use commit::Choose;
use graph::{Graph, parse};
use machine::{Machine, Refusal};
use std::alloc::{AllocError, Global};
use std::sync::Arc;
use terms::{Addr, Inst, Put, Tag};
use test_cases::Names;

/// The result of a story.
pub(crate) fn answer(
    alloc: Global,
    names: &Names,
    words: &str,
    lines: &str,
) -> Result<String, AllocError> {
    let (name, choosers) = words.split_once(' ').unwrap_or((words, ""));
    let Some(text) = names.bytes(name) else {
        return String::from_str(alloc, "no such name\n");
    };
    let mut answers = Vec::new(alloc);
    tell_stories(alloc, text, choosers, lines, &mut answers)?;
    joined(alloc, &answers)
}

// The result of a story with each of the choosers.
fn tell_stories(
    alloc: Global,
    text: &[u8],
    choosers: &str,
    lines: &str,
    answers: &mut Vec<String>,
) -> Result<(), AllocError> {
    for word in choosers.split_whitespace() {
        answers.push(story(alloc, text, word, lines)?)?;
    }
    Ok(())
}

// One result if all are the same, else each of them.
fn joined(alloc: Global, answers: &[String]) -> Result<String, AllocError> {
    let Some((first, others)) = answers.split_first() else {
        return String::from_str(alloc, "no chooser\n");
    };
    if others.iter().all(|other| other.as_str() == first.as_str()) {
        return String::from_str(alloc, first.as_str());
    }
    let mut out = String::new(alloc);
    push_all(answers, &mut out)?;
    Ok(out)
}

fn push_all(answers: &[String], out: &mut String) -> Result<(), AllocError> {
    out.push_str("the choosers differ\n")?;
    for told in answers {
        out.push_str(told.as_str())?;
    }
    Ok(())
}

// The result of a story with one chooser.
fn story(alloc: Global, text: &[u8], chooser: &str, lines: &str) -> Result<String, AllocError> {
    let mut out = String::new(alloc);
    tell_story(alloc, text, chooser, lines, &mut out)?;
    Ok(out)
}

fn tell_story(
    alloc: Global,
    text: &[u8],
    chooser: &str,
    lines: &str,
    out: &mut String,
) -> Result<(), AllocError> {
    match Chooser::named(alloc, chooser)? {
        Some(mut chooser) => tell_of(alloc, text, &mut chooser, lines, out),
        None => out.push_str("no such chooser\n"),
    }
}

// Tells the story of a store in memory of the graph with this text.
fn tell_of(
    alloc: Global,
    text: &[u8],
    chooser: &mut Chooser,
    lines: &str,
    out: &mut String,
) -> Result<(), AllocError> {
    match parse(alloc, text) {
        Ok(graph) => tell(alloc, &mut begun(alloc, graph)?, chooser, lines, out),
        Err(fault) => writeln!(out, "{fault}"),
    }
}

// A store in memory of this graph.
fn begun(alloc: Global, graph: Graph) -> Result<Machine, AllocError> {
    let graph = Arc::new(alloc, graph)?;
    Machine::new(alloc, graph)
}

fn tell(
    alloc: Global,
    machine: &mut Machine,
    chooser: &mut Chooser,
    lines: &str,
    out: &mut String,
) -> Result<(), AllocError> {
    for line in lines.lines() {
        take(alloc, machine, chooser, line, out)?;
    }
    Ok(())
}

// One call.
fn take(
    alloc: Global,
    machine: &mut Machine,
    chooser: &mut Chooser,
    line: &str,
    out: &mut String,
) -> Result<(), AllocError> {
    let (word, rest) = line.split_once(' ').unwrap_or((line, ""));
    match word {
        "tag" => put_tag(alloc, machine, rest, out),
        "put" => put_item(alloc, machine, rest, out),
        "get" => get(alloc, machine, rest, out),
        "run" => {
            run(alloc, machine, chooser)?;
            tell_end(alloc, machine, out)
        }
        "reopen" => reopen(alloc, machine, out),
        "report" => report(alloc, machine, rest, out),
        _ => out.push_str("no such call\n"),
    }
}

fn reopen(alloc: Global, machine: &mut Machine, out: &mut String) -> Result<(), AllocError> {
    match reopened(alloc, machine)? {
        Some(opened) => {
            *machine = opened;
            out.push_str("ok\n")
        }
        None => out.push_str("not opened\n"),
    }
}

// Lets ready instances run until none is ready, or there is a fault.
fn run(alloc: Global, machine: &mut Machine, chooser: &mut Chooser) -> Result<(), AllocError> {
    for _ in 0..u64::MAX {
        let ready = machine.ready();
        if ready == 0 || machine.fault().is_some() {
            return Ok(());
        }
        run_ready(alloc, machine, chooser.pick(ready))?;
    }
    Ok(())
}

// Writes how a run ended.
fn tell_end(alloc: Global, machine: &Machine, out: &mut String) -> Result<(), AllocError> {
    if machine.fault().is_some() {
        return tell_fault(machine, out);
    }
    let blocked = machine.blocked(alloc)?;
    if !blocked.is_empty() {
        return tell_blocked(machine, &blocked, out);
    }
    if machine.is_quiet() {
        out.push_str("complete\n")
    } else {
        out.push_str("not quiet\n")
    }
}

fn tell_fault(machine: &Machine, out: &mut String) -> Result<(), AllocError> {
    if let Some((instance, kind)) = machine.fault() {
        write!(out, "stopped by fault {} at ", kind.number())?;
        tell_named(machine.graph(), &instance, out)?;
        out.push_str("\n")?;
    }
    Ok(())
}

fn tell_blocked(
    machine: &Machine,
    blocked: &[(Inst, Addr)],
    out: &mut String,
) -> Result<(), AllocError> {
    writeln!(out, "blocked {}", blocked.len())?;
    for (instance, address) in blocked {
        tell_wait(machine, instance, address, out)?;
    }
    Ok(())
}

fn tell_wait(
    machine: &Machine,
    instance: &Inst,
    address: &Addr,
    out: &mut String,
) -> Result<(), AllocError> {
    tell_named(machine.graph(), instance, out)?;
    out.push_str(" waits at ")?;
    tell_address(machine.graph(), address, out)?;
    out.push_str("\n")
}

fn put_tag(
    alloc: Global,
    machine: &mut Machine,
    text: &str,
    out: &mut String,
) -> Result<(), AllocError> {
    let Some(tag) = tag_of(alloc, machine.graph(), text)? else {
        return out.push_str("no tag\n");
    };
    let asked = tag;
    match machine.may_put_tag(asked) {
        Ok(()) => {
            bring_tag(machine, tag)?;
            out.push_str("ok\n")
        }
        Err(refusal) => tell_refusal(&refusal, out),
    }
}

fn bring_tag(machine: &mut Machine, tag: Tag) -> Result<(), AllocError>
    requires { IsLegal machine.old.graph (facts machine.old) (EnvTag tag) }
{
    let name = tag;
    machine.make_room(&[Put::Tag(name)])?;
    machine.take_tag(tag);
    Ok(())
}

fn put_item(
    alloc: Global,
    machine: &mut Machine,
    text: &str,
    out: &mut String,
) -> Result<(), AllocError> {
    let (place, value) = text.split_once(" = ").unwrap_or((text, ""));
    let Some(address) = address_of(alloc, machine.graph(), place)? else {
        return out.push_str("no item\n");
    };
    match value.parse::<i64>() {
        Ok(value) => put_value(machine, address, value, out),
        Err(_) => out.push_str("no item\n"),
    }
}

fn put_value(
    machine: &mut Machine,
    address: Addr,
    value: i64,
    out: &mut String,
) -> Result<(), AllocError> {
    let asked = address;
    match machine.may_put_item(asked) {
        Ok(()) => {
            bring_item(machine, address, value)?;
            out.push_str("ok\n")
        }
        Err(refusal) => tell_refusal(&refusal, out),
    }
}

fn bring_item(machine: &mut Machine, address: Addr, value: i64) -> Result<(), AllocError>
    requires { IsLegal machine.old.graph (facts machine.old) (EnvItem address value) }
{
    let place = address;
    machine.make_room(&[Put::Item(place, value)])?;
    machine.take_item(address, value);
    Ok(())
}

fn tell_refusal(refusal: &Refusal, out: &mut String) -> Result<(), AllocError> {
    writeln!(out, "refused: {refusal}")
}

fn get(alloc: Global, machine: &Machine, text: &str, out: &mut String) -> Result<(), AllocError> {
    match address_of(alloc, machine.graph(), text)? {
        Some(address) => {
            let asked = address;
            tell_value(machine, &address, machine.get(asked), out)
        }
        None => out.push_str("no address\n"),
    }
}

// Writes what is at each address, and the fault.
fn report(
    alloc: Global,
    machine: &Machine,
    texts: &str,
    out: &mut String,
) -> Result<(), AllocError> {
    for text in texts.split(';') {
        tell_read(alloc, machine, text.trim(), out)?;
    }
    tell_fault(machine, out)
}

fn tell_read(
    alloc: Global,
    machine: &Machine,
    text: &str,
    out: &mut String,
) -> Result<(), AllocError> {
    match address_of(alloc, machine.graph(), text)? {
        Some(address) => {
            let asked = address;
            tell_value(machine, &address, machine.read(asked), out)
        }
        None => out.push_str("no address\n"),
    }
}

fn tell_value(
    machine: &Machine,
    address: &Addr,
    value: Result<Option<i64>, Refusal>,
    out: &mut String,
) -> Result<(), AllocError> {
    match value {
        Ok(Some(value)) => {
            tell_address(machine.graph(), address, out)?;
            writeln!(out, " = {value}")
        }
        Ok(None) => {
            tell_address(machine.graph(), address, out)?;
            out.push_str(" absent\n")
        }
        Err(refusal) => tell_refusal(&refusal, out),
    }
}
