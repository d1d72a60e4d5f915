//! What a command does in a store, and the reply to it.
ghost use Rattle.std.specs.Prelude.{◌≡◌, ◌↔◌, List, [], true, None, IfSome};
ghost use Rattle.session.specs.declared.reply.Reply.TheVariants.{Halted};
ghost use Rattle.terms.specs.declared.event.Event.TheVariants.{EnvItem, EnvTag};
ghost use Rattle.terms.specs.declared.event.Event.{Event as Came};
ghost use Rattle.machine.specs.Machine.{RefusesItem, RefusesTag};
ghost use Rattle.commit.specs.Core.{facts, graph, is_halted};
ghost use Rattle.commit.specs.Runs.{NoneRuns};
ghost use Rattle.script.specs.declared.command.Command.TheVariants.{Get, Put, Tag as Label};
ghost use Rattle.session.specs.Answers.{RepliesGet, RepliesPut, put_reply, reply_of, run_reply};
ghost use Rattle.session.specs.Lines.{AnswersAtOnce, AnswersVerdict, HasCauseByVerdict, IsOpenByVerdict, TellsByVerdict, TellsWaiting};
ghost use Rattle.session.specs.Session.{stop_of};
ghost use Rattle.commit.specs.Went.{GoesOn};
ghost use Rattle.session.specs.Went.{GoesOnBy, HasCause};

use crate::reply::Reply;
use crate::waiting::sort_by_name;
use commit::{Core, CoreError, RunError, Verdict};
use disk::Disk;
use script::Command;
use std::alloc::Global;
use terms::{Addr, Tag, orders_are_total};
use vault::{VaultError, stores_go_on};

/// Does what a command asks for, and returns the reply; but it does not run the steps.
pub(crate) fn answer<D: Disk>(core: &mut Core<D>, command: Command) -> Option<Reply>
    requires idle { NoneRuns core.old }
    ensures idle { NoneRuns core.new }
    ensures answers { AnswersAtOnce D.Disk core.old core.new command result }
{
    match command {
        Command::Run => None,
        Command::Put(address, value) => Some(put_item(core, address, value)),
        Command::Tag(tag) => Some(put_tag(core, tag)),
        Command::Get(address) => Some(get(core, address)),
    }
}

// Puts an item of the environment.
fn put_item<D: Disk>(core: &mut Core<D>, address: Addr, value: i64) -> Reply
    requires idle { NoneRuns core.old }
    ensures idle { NoneRuns core.new }
    ensures replies { (came : List Came) × (goes : GoesOnBy D.Disk core.old core.new came)
        × RepliesPut (graph core.old) (facts core.old) (RefusesItem (graph core.old) (facts core.old) address) (EnvItem address value) came result
        × HasCause D.failures core.old core.new (Put address value) goes.commits result }
    ensures halt { (result ≡ Halted) ↔ (is_halted core.old ≡ true) }
    ensures stays { stop_of result ≡ None → is_halted core.new ≡ is_halted core.old }
{
    stores_go_on::<D>();
    core.is_kept();
    let put = core.put_item(address, value);
    core.is_kept();
    put_reply(put)
}

// Puts a tag of the environment.
fn put_tag<D: Disk>(core: &mut Core<D>, tag: Tag) -> Reply
    requires idle { NoneRuns core.old }
    ensures idle { NoneRuns core.new }
    ensures replies { (came : List Came) × (goes : GoesOnBy D.Disk core.old core.new came)
        × RepliesPut (graph core.old) (facts core.old) (RefusesTag (graph core.old) (facts core.old) tag) (EnvTag tag) came result
        × HasCause D.failures core.old core.new (Label tag) goes.commits result }
    ensures halt { (result ≡ Halted) ↔ (is_halted core.old ≡ true) }
    ensures stays { stop_of result ≡ None → is_halted core.new ≡ is_halted core.old }
{
    stores_go_on::<D>();
    core.is_kept();
    let put = core.put_tag(tag);
    core.is_kept();
    put_reply(put)
}

// The reply to a put.
fn put_reply(put: Result<(), CoreError>) -> Reply
    ensures { result ≡ put_reply put }
{
    match put {
        Ok(()) => Reply::Done,
        Err(error) => refusal(error),
    }
}

// Gets an item for the environment. No event comes by it.
fn get<D: Disk>(core: &Core<D>, address: Addr) -> Reply
    ensures goes_on { GoesOn D.Disk core.now core.now [] }
    ensures replies { RepliesGet (graph core.now) (facts core.now) address [] result }
    ensures cause { HasCause D.failures core.now core.now (Get address) [] result }
    ensures halt { (result ≡ Halted) ↔ (is_halted core.now ≡ true) }
{
    stores_go_on::<D>();
    core.is_kept();
    got(core, address)
}

// The reply to a get.
fn got<D: Disk>(core: &Core<D>, address: Addr) -> Reply
    ensures replies { RepliesGet (graph core.now) (facts core.now) address [] result }
    ensures cause { HasCause D.failures core.now core.now (Get address) [] result }
    ensures halt { (result ≡ Halted) ↔ (is_halted core.now ≡ true) }
{
    let asked = address;
    match core.get(asked) {
        Ok(Some(value)) => Reply::Value(address, value),
        Ok(None) => Reply::Absent(address),
        Err(error) => refusal(error),
    }
}

/// The reply to an error of a put or a get.
pub(crate) fn refusal(error: CoreError) -> Reply
    ensures { result ≡ reply_of error }
{
    match error {
        CoreError::Refused(refusal) => Reply::Refused(refusal),
        CoreError::Store(VaultError::Full) => Reply::Full,
        CoreError::Store(VaultError::Device) => Reply::Device,
        CoreError::Store(VaultError::NoMemory) => Reply::NoMemory,
        // An open store returns no other error but that it is halted.
        CoreError::Store(_) => Reply::Halted,
    }
}

/// The reply to a run that returned this verdict and left this core.
pub(crate) fn ran<D: Disk>(
    alloc: Global,
    core: &Core<D>,
    verdict: Result<Verdict, RunError>,
) -> Reply
    ensures { AnswersVerdict D.Disk core.now verdict result }
{
    stores_go_on::<D>();
    core.is_kept();
    told(alloc, core, verdict)
}

// The reply to a run with this verdict.
fn told<D: Disk>(alloc: Global, core: &Core<D>, verdict: Result<Verdict, RunError>) -> Reply
    ensures exact { IfSome (run_reply verdict) (λ expected. result ≡ expected) }
    ensures tells { TellsByVerdict core.now verdict result }
    ensures cause { HasCauseByVerdict core.now verdict result }
    ensures stays { IsOpenByVerdict core.now verdict result }
{
    core.is_kept();
    match verdict {
        Ok(Verdict::Complete) => Reply::Complete,
        Ok(Verdict::Blocked(_)) => blocked(alloc, core),
        Ok(Verdict::Stopped(instance, kind)) => Reply::Stopped(instance, kind),
        Ok(Verdict::Limit) => Reply::Limit,
        Ok(Verdict::Asked) => Reply::Asked,
        Ok(Verdict::Halted) => Reply::Halted,
        Err(RunError::Spawn) => Reply::NoThread,
        Err(RunError::NoMemory) => Reply::NoMemory,
        Err(RunError::Full) => Reply::Full,
    }
}

// The reply when nothing is left to do and instances wait. It lists these by the names of their steps, and then by key.
fn blocked<D: Disk>(alloc: Global, core: &Core<D>) -> Reply
    ensures { TellsWaiting core.now result }
{
    orders_are_total();
    core.is_kept();
    match core.blocked(alloc) {
        Ok(waiting) => {
            let mut waiting = waiting;
            sort_by_name(core.graph(), &mut waiting);
            Reply::Blocked(waiting)
        }
        Err(_) => Reply::NoMemory,
    }
}
