//! What a worker has in hand.
ghost use Rattle.std.specs.Prelude.{◌≡◌, ◌⊎◌, [], None, IfOk, IfErr, IfSome};
ghost use mathlib.Core.List.{IsPrefix};
ghost use Rattle.graph.specs.Fits.{InstanceIsOf};
ghost use Rattle.hub.specs.Claims.{RefusesClaims};
ghost use Rattle.hub.specs.Running.{kept_of};
ghost use Rattle.pool.specs.Worked.{HasTheSame, IsHand};

use crate::pace::Pace;
use crate::settling::settled;
use crate::shelf::Shelf;
use crate::waiting::Waiting;
use crate::worker::{FEW, MOST_KEPT};
use commit::{Batch, CoreError, Outcome};
use disk::Disk;
use hub::{Hub, WorkPass};
use instances::{Task, Tasks};
use passes::Naming;
use std::alloc::{AllocError, Global};
use std::sync::Wait;
use steplang::Room;

/// What a worker has claimed, the runs that it keeps while their instances wait, and its pace.
pub(crate) struct Hand<'a> {
    /// The instances that it has claimed and not begun to run, in order.
    pub(crate) claimed: Tasks,
    /// The runs that it keeps.
    pub(crate) waiting: Waiting<'a>,
    /// The memory in which it runs bodies.
    pub(crate) room: Room<'a>,
    /// What it remembers of the bodies that it ran, and of what others did.
    pub(crate) pace: Pace,
    // Its tickets, and those of others.
    shelf: Shelf<'a>,
    // Of the results that are kept, how many it has looked at for instances that wait for their items.
    looked: usize,
    // Whether it claims one instance before it goes on, since one has begun to wait.
    stuck: bool,
    // Whether it has done so since the last body that ended.
    tried: bool,
    // Whether it looks for instances that wait for what it keeps before it goes on with those that it has claimed.
    chases: bool,
    // How many of the last of those that it has claimed come before the others.
    woken: usize,
}

impl<'a> Hand<'a> {
    /// A hand that has claimed nothing and keeps nothing.
    pub(crate) fn empty(alloc: Global, shelf: Shelf<'a>) -> Result<Hand<'a>, AllocError>
        ensures { IfOk result (λ hand. (hand.claimed ≡ []) × (hand.waiting.places.items ≡ [])) }
    {
        let claimed = Tasks::with_room(alloc, MOST_KEPT)?;
        Ok(Hand {
            claimed,
            waiting: Waiting::none(alloc),
            room: Room::new(alloc),
            pace: Pace::new(),
            shelf,
            looked: 0,
            stuck: false,
            tried: false,
            chases: false,
            woken: 0,
        })
    }

    /// Notes how many statements and puts a body has made, and whether results are kept beside it.
    pub(crate) fn note(&mut self, statements: u32, puts: usize, keeps: bool)
        ensures { HasTheSame self.old self.new }
    {
        if !keeps {
            self.looked = 0;
        }
        self.pace.note(statements, puts, keeps);
    }

    /// Notes that an instance waits. What it waits for may stand in front of the queue, since another worker gave it back after this one had claimed those behind it: so one instance is claimed before it goes on
    /// with the others, most of which would wait, too; and then what waits for what that one puts is run first.
    pub(crate) fn note_wait(&mut self)
        ensures { HasTheSame self.old self.new }
    {
        self.stuck = !self.tried;
        self.tried = true;
        self.chases = true;
    }

    /// Notes that a body has ended with this outcome, how many statements it has made, and how many of these since it went on, and whether results are kept beside it.
    pub(crate) fn note_end(
        &mut self,
        outcome: &Outcome<'_>,
        statements: u32,
        made: u32,
        keeps: bool,
    )
        ensures { HasTheSame self.old self.new }
    {
        let puts = puts_of(outcome);
        self.tried = false;
        self.pace.note_end(statements, puts);
        self.note(made, puts, keeps);
    }

    /// What is kept, if a body may look for items there, `ready` being the number of instances that are ready now.
    pub(crate) fn ahead<'k, 'b>(
        &mut self,
        kept: &'k Option<Batch<'b>>,
        ready: usize,
    ) -> Option<&'k Batch<'b>>
        ensures kept { (kept_of result ≡ None) ⊎ (kept_of result ≡ kept.now) }
        ensures same { HasTheSame self.old self.new }
    {
        if !self.pace.looks_ahead(ready) {
            return None;
        }
        match kept {
            Some(batch) => Some(batch),
            None => None,
        }
    }

    /// How many instances it has claimed and not committed, if it keeps this number of results and one body waits.
    pub(crate) fn own(&self, kept: usize) -> usize {
        self.claimed.len().saturating_add(kept).saturating_add(1)
    }

    /// The next instance to run, if there is one: it was claimed before, or is now, by a ticket or with others. Says whether an instance runs then. After
    /// a body that took long, what was claimed before it is given back, so that others can run it. If the worker keeps
    /// `FEW` results or more and fewer instances seem to be ready, or some and none seems to be, it claims those that wait for what it keeps; if there are none, the results are
    /// committed first.
    pub(crate) fn next<J: Naming, D: Disk, R: Wait>(
        &mut self,
        rt: &R,
        hub: &Hub<J, D>,
        pass: &mut WorkPass<J>,
        kept: &Option<Batch<'_>>,
    ) -> Result<(Option<Task>, bool), CoreError>
        requires { IsHand J.opening pass.old.seen self.old }
        ensures hand { IsHand J.opening pass.new.seen self.new }
        ensures task { IfOk result (λ next. IfSome next.0 (InstanceIsOf J.opening.graph)) }
        ensures ahead { IsPrefix pass.old.seen pass.new.seen }
        ensures refused { IfErr result RefusesClaims }
    {
        let count = count_of(kept);
        let pace = self.pace;
        if pace.is_slow() {
            self.give_back(rt, hub, pass);
            return self.claim_next(rt, hub, pass, 1);
        }
        if self.chases {
            self.chase(rt, hub, pass, kept)?;
        }
        match self.take_next(pass) {
            Some(task) => Ok((Some(task), true)),
            None if commits_first(count, hub.ready()) => self.claim_waiting(rt, hub, pass, kept),
            None => self.claim_next(rt, hub, pass, pace.most(count)),
        }
    }

    // Claims the next instance: by a ticket of its own, if it has one; where bodies of late took longer than a visit of the lock by far, by a ticket of another worker, or a new one; else with
    // others, up to `most`.
    fn claim_next<J: Naming, D: Disk, R: Wait>(
        &mut self,
        rt: &R,
        hub: &Hub<J, D>,
        pass: &mut WorkPass<J>,
        most: usize,
    ) -> Result<(Option<Task>, bool), CoreError>
        requires { IsHand J.opening pass.old.seen self.old }
        ensures hand { IsHand J.opening pass.new.seen self.new }
        ensures task { IfOk result (λ next. IfSome next.0 (InstanceIsOf J.opening.graph)) }
        ensures ahead { IsPrefix pass.old.seen pass.new.seen }
        ensures refused { IfErr result RefusesClaims }
    {
        let shares = self.pace.shares();
        if let Some(task) = self.shelf.claim(rt, hub, pass, shares)? {
            return Ok((Some(task), true));
        }
        let waits = shares && !self.shelf.over;
        if waits {
            return Ok((None, hub.busy(rt, pass)));
        }
        self.claim(rt, hub, pass, most)
    }

    // Claims what waits for what is kept; or, after an instance has begun to wait, one that is ready.
    fn chase<J: Naming, D: Disk, R: Wait>(
        &mut self,
        rt: &R,
        hub: &Hub<J, D>,
        pass: &mut WorkPass<J>,
        kept: &Option<Batch<'_>>,
    ) -> Result<(), CoreError>
        requires { IsHand J.opening pass.old.seen self.old }
        ensures hand { IsHand J.opening pass.new.seen self.new }
        ensures ahead { IsPrefix pass.old.seen pass.new.seen }
        ensures refused { IfErr result RefusesClaims }
    {
        if self.woken > 0 {
            return Ok(());
        }
        let before = self.claimed.len();
        self.look_for_waiting(rt, hub, pass, kept)?;
        let found = self.claimed.len().saturating_sub(before);
        let is_stuck = self.stuck;
        self.stuck = false;
        self.woken = found;
        if found > 0 || before == 0 || !is_stuck {
            return Ok(());
        }
        self.claim_front(rt, hub, pass)
    }

    // Claims one ready instance, which comes before the others.
    fn claim_front<J: Naming, D: Disk, R: Wait>(
        &mut self,
        rt: &R,
        hub: &Hub<J, D>,
        pass: &mut WorkPass<J>,
    ) -> Result<(), CoreError>
        requires { IsHand J.opening pass.old.seen self.old }
        ensures hand { IsHand J.opening pass.new.seen self.new }
        ensures ahead { IsPrefix pass.old.seen pass.new.seen }
        ensures refused { IfErr result RefusesClaims }
    {
        let before = self.claimed.len();
        match hub.claim_some(rt, pass, &mut self.claimed, 1) {
            Ok(_) => {
                self.woken = self.claimed.len().saturating_sub(before);
                Ok(())
            }
            Err(error) => Err(error),
        }
    }

    // Takes one of the instances that it has claimed: the last one, if it comes before the others, else the first.
    fn take_next<J: Naming>(&mut self, pass: &WorkPass<J>) -> Option<Task>
        requires { IsHand J.opening pass.now.seen self.old }
        ensures hand { IsHand J.opening pass.now.seen self.new }
        ensures task { IfSome result (InstanceIsOf J.opening.graph) }
    {
        let _ = pass;
        if self.woken > 0 {
            self.woken -= 1;
            return self.claimed.take_last();
        }
        self.chases = false;
        self.claimed.take_first()
    }

    // Claims instances that wait for items which are kept, and takes the first of them.
    fn claim_waiting<J: Naming, D: Disk, R: Wait>(
        &mut self,
        rt: &R,
        hub: &Hub<J, D>,
        pass: &mut WorkPass<J>,
        kept: &Option<Batch<'_>>,
    ) -> Result<(Option<Task>, bool), CoreError>
        requires { IsHand J.opening pass.old.seen self.old }
        ensures hand { IsHand J.opening pass.new.seen self.new }
        ensures task { IfOk result (λ next. IfSome next.0 (InstanceIsOf J.opening.graph)) }
        ensures ahead { IsPrefix pass.old.seen pass.new.seen }
        ensures refused { IfErr result RefusesClaims }
    {
        self.look_for_waiting(rt, hub, pass, kept)?;
        Ok((self.take_next(pass), true))
    }

    // Claims instances that wait for items which are kept, if bodies may read these. Each result is looked at once.
    fn look_for_waiting<J: Naming, D: Disk, R: Wait>(
        &mut self,
        rt: &R,
        hub: &Hub<J, D>,
        pass: &mut WorkPass<J>,
        kept: &Option<Batch<'_>>,
    ) -> Result<(), CoreError>
        requires { IsHand J.opening pass.old.seen self.old }
        ensures hand { IsHand J.opening pass.new.seen self.new }
        ensures ahead { IsPrefix pass.old.seen pass.new.seen }
        ensures refused { IfErr result RefusesClaims }
    {
        let Some(batch) = self.ahead(kept, hub.ready()) else {
            return Ok(());
        };
        if self.looked >= batch.len() {
            return Ok(());
        }
        let most = self.pace.most_kept().saturating_sub(batch.len());
        let mut visit = hub.visit(rt);
        for number in self.looked..batch.len() {
            let left = most.saturating_sub(self.claimed.len());
            if left == 0 {
                break;
            }
            visit.claim_waiting(pass, &mut self.claimed, batch.puts(number), left)?;
            self.looked = number + 1;
        }
        Ok(())
    }

    // Claims up to `most` instances, and takes the first of them.
    fn claim<J: Naming, D: Disk, R: Wait>(
        &mut self,
        rt: &R,
        hub: &Hub<J, D>,
        pass: &mut WorkPass<J>,
        most: usize,
    ) -> Result<(Option<Task>, bool), CoreError>
        requires { IsHand J.opening pass.old.seen self.old }
        ensures hand { IsHand J.opening pass.new.seen self.new }
        ensures task { IfOk result (λ next. IfSome next.0 (InstanceIsOf J.opening.graph)) }
        ensures ahead { IsPrefix pass.old.seen pass.new.seen }
        ensures refused { IfErr result RefusesClaims }
    {
        match hub.claim_some(rt, pass, &mut self.claimed, most) {
            Ok(busy) => Ok((self.claimed.take_first(), busy)),
            Err(error) => Err(error),
        }
    }

    /// Gives all instances back that were claimed and not begun, the last one first, so that they are ready in the order in which they were claimed.
    pub(crate) fn give_back<J: Naming, D: Disk, R: Wait>(
        &mut self,
        rt: &R,
        hub: &Hub<J, D>,
        pass: &mut WorkPass<J>,
    )
        requires { IsHand J.opening pass.old.seen self.old }
        ensures hand { IsHand J.opening pass.new.seen self.new }
        ensures none { self.new.claimed ≡ [] }
        ensures ahead { IsPrefix pass.old.seen pass.new.seen }
    {
        self.woken = 0;
        self.stuck = false;
        self.chases = false;
        if self.claimed.is_empty() {
            return;
        }
        let mut visit = hub.visit(rt);
        while let Some(task) = self.claimed.take_last() {
            let _ = settled(rt, visit.release(pass, task));
        }
    }

    /// Leaves what it has tickets for to others, and gives back what it has claimed and not begun.
    pub(crate) fn leave<J: Naming, D: Disk, R: Wait>(
        &mut self,
        rt: &R,
        hub: &Hub<J, D>,
        pass: &mut WorkPass<J>,
    )
        requires { IsHand J.opening pass.old.seen self.old }
        ensures hand { IsHand J.opening pass.new.seen self.new }
        ensures ahead { IsPrefix pass.old.seen pass.new.seen }
    {
        self.shelf.leave(rt, hub);
        self.give_back(rt, hub, pass);
    }

    /// Lets go of it, once nothing is claimed.
    pub(crate) fn end(self)
        requires { self.claimed ≡ [] }
    {
        let Hand {
            claimed,
            waiting,
            room: _,
            pace: _,
            shelf: _,
            looked: _,
            stuck: _,
            tried: _,
            chases: _,
            woken: _,
        } = self;
        drop(waiting);
        claimed.end();
    }
}

// How many puts an outcome has.
fn puts_of(outcome: &Outcome<'_>) -> usize {
    match outcome {
        Outcome::Gave(given) => given.puts().as_slice().len(),
        Outcome::Fault(_) => 0,
    }
}

/// How many results are kept.
pub(crate) fn count_of(kept: &Option<Batch<'_>>) -> usize {
    match kept {
        Some(batch) => batch.len(),
        None => 0,
    }
}

// Whether a worker that keeps this number of results commits them before it claims, where this number of instances seems to be ready.
fn commits_first(kept: usize, ready: usize) -> bool {
    kept > 0 && (ready == 0 || (kept >= FEW && ready < FEW))
}
