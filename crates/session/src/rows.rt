//! Rows of puts: several puts of a script, committed as one.
ghost use Rattle.std.specs.Prelude.{◌≡◌, ◌≤◌, IfOk, IsTrue, MatchBool, Some, length, map, take};
ghost use Rattle.std.specs.List.{AllByRecursion};
ghost use Rattle.commit.specs.Runs.{NoneRuns};
ghost use Rattle.session.specs.declared.rows.TheConstants.{MOST_LINES};
ghost use Rattle.session.specs.Lines.{AnswersAtOnce, AnswersSome, AnswersTogether};
ghost use Rattle.session.specs.Session.{all_of};
ghost use Rattle.session.specs.Went.{Puts, put_by};

use crate::answers::{answer, refusal};
use crate::reply::Reply;
use commit::Core;
use disk::Disk;
use script::Command;
use std::alloc::{AllocError, Global};
use terms::{Event, facts_are_told_apart};
use vault::stores_go_on;

/// Where more puts than this stand in a row, they are committed in groups of up to this number.
pub const MOST_LINES: usize = 64;

/// How several puts came, that were tried as one commit.
#[derive(Drop)]
pub(crate) enum Together {
    /// This number of the first ones came; at least one.
    Came(usize),
    /// None came, and the core goes on as it was.
    Apart,
    /// The core is halted, and this is the reply to the first.
    Halted(Reply),
}

/// How many puts stand in front of these commands, one after another.
pub(crate) fn puts_in_front(commands: &[Command]) -> usize
    ensures within { result ≤ length commands.now }
    ensures puts { AllByRecursion Puts (take result commands.now) }
{
    for number in 0..commands.len() {
        if !is_put(&commands[number]) {
            return number;
        }
    }
    commands.len()
}

// Whether the command puts something.
fn is_put(command: &Command) -> bool
    ensures { MatchBool result (Puts command.now) (Puts command.now → ⊥) }
{
    match command {
        Command::Put(_, _) | Command::Tag(_) => true,
        Command::Get(_) | Command::Run => false,
    }
}

/// Puts what these commands put: as one commit, as far as they come together, and returns how many came. If none comes so, the
/// first is put alone, and the reply to it is the error.
pub(crate) fn put_some<D: Disk>(
    alloc: Global,
    core: &mut Core<D>,
    commands: &[Command],
) -> Result<usize, Reply>
    requires idle { NoneRuns core.old }
    requires puts { AllByRecursion Puts commands.now }
    requires some { 1 ≤ length commands.now }
    requires few { length commands.now ≤ MOST_LINES }
    ensures idle { NoneRuns core.new }
    ensures answers { AnswersSome D.Disk core.old core.new commands.now result }
{
    facts_are_told_apart();
    stores_go_on::<D>();
    match put_together(alloc, core, commands) {
        Together::Came(count) => Ok(count),
        Together::Apart => Err(put_first(core, commands[0])),
        Together::Halted(reply) => Err(reply),
    }
}

// Tries what these commands put as one commit.
fn put_together<D: Disk>(alloc: Global, core: &mut Core<D>, commands: &[Command]) -> Together
    requires idle { NoneRuns core.old }
    requires puts { AllByRecursion Puts commands.now }
    requires some { 1 ≤ length commands.now }
    requires few { length commands.now ≤ MOST_LINES }
    ensures idle { NoneRuns core.new }
    ensures answers { AnswersTogether D.Disk core.old core.new commands.now result }
{
    stores_go_on::<D>();
    core.is_kept();
    match events_of(alloc, commands) {
        Ok(events) => match core.put_all(events) {
            Ok(0) => Together::Apart,
            Ok(count) => Together::Came(count),
            Err(error) => match core.status() {
                Ok(_) => Together::Apart,
                Err(_) => Together::Halted(refusal(error)),
            },
        },
        Err(_) => Together::Apart,
    }
}

// Puts what a command puts, by itself.
fn put_first<D: Disk>(core: &mut Core<D>, command: Command) -> Reply
    requires idle { NoneRuns core.old }
    requires puts { Puts command }
    ensures idle { NoneRuns core.new }
    ensures answers { AnswersAtOnce D.Disk core.old core.new command (Some result) }
{
    match answer(core, command) {
        Some(reply) => reply,
        None => unreachable!(),
    }
}

// What these commands put, as events.
fn events_of(alloc: Global, commands: &[Command]) -> Result<Vec<Event>, AllocError>
    ensures { IfOk result (λ events. events.items ≡ all_of (map put_by commands.now)) }
{
    let mut events = Vec::with_capacity(alloc, commands.len())?;
    for command in commands {
        match command {
            Command::Put(address, value) => events.push_reserved(Event::EnvItem(*address, *value)),
            Command::Tag(tag) => events.push_reserved(Event::EnvTag(*tag)),
            Command::Get(_) | Command::Run => {}
        }
    }
    Ok(events)
}
