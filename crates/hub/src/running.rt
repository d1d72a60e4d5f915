//! A body that is run over what a hub has, outside the lock.
ghost use Rattle.std.specs.Prelude.{None, IfErr, IfOk};
ghost use Rattle.graph.specs.Fits.{InstanceIsOf};
ghost use Rattle.machine.specs.Machine.{IsValueAt, RefusesRead};
ghost use Rattle.machine.specs.Results.{AreItems, IsBodyOf};
ghost use Rattle.steplang.specs.Running.{IsDue, reads_with};
ghost use Rattle.hub.specs.Opening.{facts_behind};
ghost use Rattle.hub.specs.Replies.{RefusesQuestion};
ghost use Rattle.hub.specs.Running.{IsAhead, IsFoundIn, RanIn, StopsRun, WaitsIn, kept_of, said_by, StopsRunIn};

use crate::{Hub, WorkPass};
use commit::{Batch, CoreError, Outcome};
use disk::Disk;
use instances::Task;
use machine::results_are_meant;
use passes::Naming;
use std::sync::Wait;
use steplang::{Room, Run, Turn};
use steptree::ends_within_limits;
use terms::{Addr, facts_are_told_apart, facts_go_on};
use vault::VaultError;

/// What running the body of an instance came to.
#[derive(Drop)]
pub enum Ran<'a> {
    /// The body's end, and how many statements and turns of loops the body made.
    Ended(Outcome<'a>, u32),
    /// The body asks for an item that was not there, and whether it read an item that only the batch puts. It can go on once the item is there
    /// (`Hub::resume`), or be parked. In both cases the items that it read must be committed first.
    Waits(Run<'a>, bool),
}

// What a look for an item found.
pub(crate) enum Found {
    // The batch puts it.
    Kept(i64),
    // It is committed.
    There(i64),
    Nowhere,
}

impl<J: Naming, D: Disk> Hub<J, D> {
    /// Runs the body of the instance of a task, to its end or to an item that is not there.
    ///
    /// It reads what is committed, and what the outcomes of a batch put that is not committed yet: a batch to which its own outcome may be added, so that
    /// it is committed with them or after them, or not at all.
    ///
    /// Each read of what is committed is a `read` by itself, and takes the lock for that alone. The only errors are `NoMemory`, and those of a
    /// read that the body asks for. It runs in the memory of `room`, and leaves it there at the body's end.
    pub fn run<'a, R: Wait>(
        &'a self,
        rt: &R,
        room: &mut Room<'a>,
        pass: &mut WorkPass<J>,
        task: &Task,
        kept: Option<&Batch<'a>>,
    ) -> Result<Ran<'a>, CoreError>
        requires { InstanceIsOf J.opening.graph task.now }
        ensures pass { IsAhead pass.old pass.new }
        ensures came { IfOk result (RanIn J.opening.graph (facts_behind J.opening pass.new.seen) (kept_of kept.entry) task.now) }
        ensures refused { IfErr result (StopsRunIn J.opening pass.new kept.entry task.now) }
    {
        let instance = task.inst();
        let checked = self.graph().body(instance.collection).unwrap();
        match room.begin(checked, instance) {
            Ok(run) => self.go_on(rt, room, pass, kept, run, None),
            Err(_) => Err(CoreError::Store(VaultError::NoMemory)),
        }
    }

    /// Lets a body that waits go on, if its item is there by now: to its end or to the next item that is not there. Otherwise
    /// it still waits.
    ///
    /// The run must be of a body of this graph, and each item that it read must be in the state that the pass knew. The
    /// errors are those of `run`. At the body's end `room` keeps the memory of the run.
    pub fn resume<'a, R: Wait>(
        &'a self,
        rt: &R,
        room: &mut Room<'a>,
        pass: &mut WorkPass<J>,
        run: Run<'a>,
    ) -> Result<Ran<'a>, CoreError>
        requires { WaitsIn J.opening.graph (facts_behind J.opening pass.old.seen) run.instance run }
        ensures pass { IsAhead pass.old pass.new }
        ensures came { IfOk result (RanIn J.opening.graph (facts_behind J.opening pass.new.seen) None run.entry.instance) }
        ensures refused { IfErr result (StopsRun J.opening.graph (facts_behind J.opening pass.new.seen) run.entry.instance) }
    {
        facts_are_told_apart();
        facts_go_on();
        results_are_meant();
        let address = run.pending().unwrap();
        match self.read(rt, pass, address)? {
            Some(value) => self.go_on(rt, room, pass, None, run, Some(value)),
            None => Ok(Ran::Waits(run, false)),
        }
    }

    // Goes on with this answer, and gives a run the items that it asks for, to its end or to an item that is not there.
    fn go_on<'a, R: Wait>(
        &'a self,
        rt: &R,
        room: &mut Room<'a>,
        pass: &mut WorkPass<J>,
        kept: Option<&Batch<'a>>,
        mut run: Run<'a>,
        mut answer: Option<i64>,
    ) -> Result<Ran<'a>, CoreError>
        requires body { IsBodyOf J.opening.graph run.instance run.checked.now.body }
        requires due { IsDue run.awaits answer }
        requires read { AreItems (facts_behind J.opening pass.old.seen) (reads_with run.reads run.awaits answer) }
        ensures pass { IsAhead pass.old pass.new }
        ensures came { IfOk result (RanIn J.opening.graph (facts_behind J.opening pass.new.seen) (kept_of kept.entry) run.entry.instance) }
        ensures refused { IfErr result (StopsRunIn J.opening pass.new kept.entry run.entry.instance) }
    {
        ends_within_limits();
        facts_are_told_apart();
        facts_go_on();
        results_are_meant();
        let mut ahead = false;
        loop {
            match run.advance(answer) {
                Ok(Turn::Need(address)) => match self.look(rt, pass, kept, address)? {
                    Found::Kept(value) => {
                        ahead = true;
                        answer = Some(value);
                    }
                    Found::There(value) => answer = Some(value),
                    Found::Nowhere => return Ok(Ran::Waits(run, ahead)),
                },
                Ok(Turn::Gave(given)) => {
                    let statements = run.statements();
                    room.keep(run);
                    return Ok(Ran::Ended(Outcome::Gave(given), statements));
                }
                Ok(Turn::Fault(bad)) => {
                    let statements = run.statements();
                    room.keep(run);
                    return Ok(Ran::Ended(Outcome::Fault(bad), statements));
                }
                Err(_) => return Err(CoreError::Store(VaultError::NoMemory)),
            }
        }
    }

    // Looks for an item: among those that the batch puts, and then among those that are committed.
    fn look<'a, R: Wait>(
        &self,
        rt: &R,
        pass: &mut WorkPass<J>,
        kept: Option<&Batch<'a>>,
        address: Addr,
    ) -> Result<Found, CoreError>
        ensures pass { IsAhead pass.old pass.new }
        ensures found { IfOk result (IsFoundIn (facts_behind J.opening pass.new.seen) (kept_of kept.entry) address) }
        ensures refused { IfErr result (RefusesQuestion (RefusesRead J.opening.graph address)) }
    {
        let place = address;
        match put_by(kept, place) {
            Some(value) => Ok(Found::Kept(value)),
            None => match self.read(rt, pass, address) {
                Ok(Some(value)) => Ok(Found::There(value)),
                Ok(None) => Ok(Found::Nowhere),
                Err(error) => Err(error),
            },
        }
    }
}

// The value that a batch puts at an address, if there is a batch and it puts one.
fn put_by(kept: Option<&Batch<'_>>, address: Addr) -> Option<i64>
    ensures { IsValueAt (said_by (kept_of kept.entry)) address result }
{
    match kept {
        Some(batch) => batch.item(address),
        None => None,
    }
}
