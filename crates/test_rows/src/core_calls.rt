//! The calls of a store with its steps.

use crate::bodies::tell_address;
use crate::named::{address_of, tag_of, tell_named, tell_tag};
use crate::together;
use audit::{VerifyError, verify};
use commit::{Core, CoreError, CreateError, RunError, Status, Verdict};
use disk::MemDisk;
use machine::Ended;
use std::alloc::{AllocError, Global};
use terms::{Addr, FaultKind, Inst};
use vault::VaultError;

/// One call.
pub(crate) fn take(
    alloc: Global,
    core: &mut Core<MemDisk>,
    word: &str,
    rest: &str,
    told: &mut String,
) -> Result<(), AllocError> {
    match word {
        "tag" => put_tag(alloc, core, rest, told),
        "put" => put_item(alloc, core, rest, told),
        "get" => tell_at(alloc, core, rest, false, told),
        "status" => tell_status(core, told),
        "report" => report(alloc, core, rest, told),
        "counts" => tell_counts(core, told),
        "ready" => tell_ready(core, told),
        "together" => finish_together(alloc, core, rest, told),
        "items" => tell_items(core, rest, told),
        "turn" => turn(alloc, core, told),
        "verify" => tell_certificate(alloc, core, told),
        _ => told.push_str("no such call"),
    }
}

fn tell_done(done: Result<(), CoreError>, told: &mut String) -> Result<(), AllocError> {
    match done {
        Ok(()) => told.push_str("ok"),
        Err(error) => write!(told, "refused: {error}"),
    }
}

/// Writes why a store was not created.
pub(crate) fn tell_creation(error: &CreateError, told: &mut String) -> Result<(), AllocError> {
    match error {
        CreateError::Graph(fault) => write!(told, "{fault}"),
        CreateError::Store(error) => write!(told, "{error}"),
    }
}

/// Writes why a store was not opened.
pub(crate) fn tell_opening(error: &VaultError, told: &mut String) -> Result<(), AllocError> {
    write!(told, "{error}")
}

fn put_tag(
    alloc: Global,
    core: &mut Core<MemDisk>,
    text: &str,
    told: &mut String,
) -> Result<(), AllocError> {
    match tag_of(alloc, core.graph(), text)? {
        Some(tag) => tell_done(core.put_tag(tag), told),
        None => told.push_str("no tag"),
    }
}

fn put_item(
    alloc: Global,
    core: &mut Core<MemDisk>,
    text: &str,
    told: &mut String,
) -> Result<(), AllocError> {
    let (place, value) = text.split_once(" = ").unwrap_or((text, ""));
    let Ok(value) = value.parse::<i64>() else {
        return told.push_str("no value");
    };
    match address_of(alloc, core.graph(), place)? {
        Some(address) => tell_done(core.put_item(address, value), told),
        None => told.push_str("no address"),
    }
}

fn turn(alloc: Global, core: &mut Core<MemDisk>, told: &mut String) -> Result<(), AllocError> {
    match core.turn(alloc) {
        Ok(generation) => write!(told, "generation {generation}"),
        Err(error) => write!(told, "refused: {error}"),
    }
}

// Writes whether the store is certified, or else where it is not.
fn tell_certificate(
    alloc: Global,
    core: &Core<MemDisk>,
    told: &mut String,
) -> Result<(), AllocError> {
    let Err(why) = verify(alloc, core, &mut ()) else {
        return told.push_str("verified");
    };
    match why {
        VerifyError::Instance(instance) => {
            told.push_str("not verified at ")?;
            tell_named(core.graph(), &instance, told)
        }
        VerifyError::Item(address) => {
            told.push_str("not verified at ")?;
            tell_address(core.graph(), &address, told)
        }
        VerifyError::Tag(tag) => {
            told.push_str("not verified at ")?;
            tell_tag(core.graph(), &tag, told)
        }
        VerifyError::NoMemory => told.push_str("no memory"),
        VerifyError::Halted => told.push_str("halted"),
    }
}

// Lets some of the ready instances run, and commits their ends together.
fn finish_together(
    alloc: Global,
    core: &mut Core<MemDisk>,
    most: &str,
    told: &mut String,
) -> Result<(), AllocError> {
    let most = most.parse::<usize>().unwrap_or(0);
    match together::finish_together(alloc, core, most)? {
        Some(Ok(ended)) => tell_ended(ended, told),
        Some(Err(error)) => write!(told, "refused: {error}"),
        None => told.push_str("none ended"),
    }
}

fn tell_ended(ended: Ended, told: &mut String) -> Result<(), AllocError> {
    write!(told, "{} done", ended.done)?;
    match ended.stopped {
        Some(kind) => write!(told, ", then fault {}", kind.number()),
        None => Ok(()),
    }
}

fn tell_ready(core: &Core<MemDisk>, told: &mut String) -> Result<(), AllocError> {
    write!(told, "{} ready, {} run", core.ready(), core.running())
}

/// Writes how a run ended, or that there was none.
pub(crate) fn tell_ran(
    core: &Core<MemDisk>,
    ran: Option<Result<Verdict, RunError>>,
    told: &mut String,
) -> Result<(), AllocError> {
    match ran {
        Some(verdict) => tell_verdict(core, verdict, told),
        None => told.push_str("an instance runs"),
    }
}

fn tell_verdict(
    core: &Core<MemDisk>,
    verdict: Result<Verdict, RunError>,
    told: &mut String,
) -> Result<(), AllocError> {
    match verdict {
        Ok(Verdict::Complete) => told.push_str("complete"),
        Ok(Verdict::Blocked(blocked)) => write!(told, "blocked {blocked}"),
        Ok(Verdict::Stopped(instance, kind)) => tell_fault(core, &instance, kind, told),
        Ok(Verdict::Limit) => told.push_str("limit"),
        Ok(Verdict::Asked) => told.push_str("asked"),
        Ok(Verdict::Halted) => told.push_str("halted"),
        Err(error) => write!(told, "ended early: {error}"),
    }
}

fn tell_status(core: &Core<MemDisk>, told: &mut String) -> Result<(), AllocError> {
    match core.status() {
        Ok(Status::Working) => told.push_str("working"),
        Ok(Status::Quiet { blocked: 0 }) => told.push_str("complete"),
        Ok(Status::Quiet { blocked }) => write!(told, "blocked {blocked}"),
        Ok(Status::Stopped(instance, kind)) => tell_fault(core, &instance, kind, told),
        Err(error) => write!(told, "refused: {error}"),
    }
}

fn tell_fault(
    core: &Core<MemDisk>,
    instance: &Inst,
    kind: FaultKind,
    told: &mut String,
) -> Result<(), AllocError> {
    write!(told, "stopped by fault {} at ", kind.number())?;
    tell_named(core.graph(), instance, told)
}

// Writes what is at each address.
fn report(
    alloc: Global,
    core: &Core<MemDisk>,
    texts: &str,
    told: &mut String,
) -> Result<(), AllocError> {
    let mut is_first = true;
    for text in texts.split(';') {
        if !is_first {
            told.push_str(", ")?;
        }
        is_first = false;
        tell_at(alloc, core, text.trim(), true, told)?;
    }
    Ok(())
}

// Writes what is at an address, as a step reads it, or as the environment gets it.
fn tell_at(
    alloc: Global,
    core: &Core<MemDisk>,
    text: &str,
    by_step: bool,
    told: &mut String,
) -> Result<(), AllocError> {
    match address_of(alloc, core.graph(), text)? {
        Some(address) => {
            let asked = address;
            let value = if by_step {
                core.read(asked)
            } else {
                core.get(asked)
            };
            tell_value(core, &address, value, told)
        }
        None => told.push_str("no address"),
    }
}

fn tell_value(
    core: &Core<MemDisk>,
    address: &Addr,
    value: Result<Option<i64>, CoreError>,
    told: &mut String,
) -> Result<(), AllocError> {
    match value {
        Ok(Some(value)) => {
            tell_address(core.graph(), address, told)?;
            write!(told, " = {value}")
        }
        Ok(None) => {
            tell_address(core.graph(), address, told)?;
            told.push_str(" absent")
        }
        Err(error) => write!(told, "refused: {error}"),
    }
}

fn tell_counts(core: &Core<MemDisk>, told: &mut String) -> Result<(), AllocError> {
    let counts = core.counts();
    write!(
        told,
        "{} items, {} tags, {} of {} steps done",
        counts.items, counts.tags, counts.done, counts.prescribed
    )
}

// Writes the items of the collection with this name.
fn tell_items(core: &Core<MemDisk>, name: &str, told: &mut String) -> Result<(), AllocError> {
    let Some(collection) = core.graph().item_number(name) else {
        return told.push_str("no such collection");
    };
    let mut is_first = true;
    for (address, value) in core.items_of(collection) {
        if !is_first {
            told.push_str(", ")?;
        }
        is_first = false;
        tell_address(core.graph(), &address, told)?;
        write!(told, " = {value}")?;
    }
    Ok(())
}
