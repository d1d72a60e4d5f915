//! What one worker does.
ghost use Rattle.std.specs.Prelude.{◌≡◌, Some, true};
ghost use mathlib.Core.List.{IsPrefix};
ghost use Rattle.pool.specs.declared.worker.Met.TheVariants.{Asked as MetAsked, Full as MetFull};
ghost use Rattle.pool.specs.declared.worker.Turned.TheVariants.{Ends};
ghost use Rattle.pool.specs.Worked.{AreKept, IsHand, IsTurned, Justifies, turned_by};

use crate::Probe;
use crate::committing::{commit_kept, exchange};
use crate::hand::Hand;
use crate::pace::Pace;
use crate::running::run_task;
use crate::settling::{settled, stopped_by};
use crate::shelf::Shelf;
use commit::Batch;
use disk::Disk;
use hub::{Hub, WorkPass};
use instances::Task;
use machine::results_are_meant;
use passes::Naming;
use std::alloc::Global;
use std::hint::spin_loop;
use std::marker::PhantomData;
use std::sync::Wait;
use std::thread::{Promise, yield_now};
use terms::{facts_are_told_apart, facts_go_on};

/// Why a worker asked all workers to end.
#[derive(Clone, Copy, Debug, PartialEq, Eq)]
pub(crate) enum Met {
    /// The probe answered `Stop`.
    Asked,
    /// Memory was refused.
    NoMemory,
    /// A record did not fit.
    Full,
    /// Something that the core shows by itself: it is halted, or a fault stopped it.
    Other,
}

/// A worker that has ended, with the pass that it gives back.
#[derive(Drop)]
pub(crate) struct Ended<J: Naming> {
    pub(crate) pass: WorkPass<J>,
    pub(crate) met: Option<Met>,
}

/// What a thread promises of its worker: it met `Asked` only if its probe may answer `Stop`, and `Full` only if an end was so
/// refused in what its pass has seen.
#[derive(Drop)]
pub(crate) struct AsProbed<P: Probe> {
    pub(crate) of: PhantomData<P>,
}

impl<J: Naming, P: Probe> Promise<Ended<J>> for AsProbed<P> {
    ghost kept_by = { λ _ ended. (ended.met ≡ Some MetAsked → P.may_stop ≡ true) × Justifies J.opening ended.met ended.pass };
}

/// What a worker does after a turn: it goes on with the results that it keeps; or it ends, perhaps since it met something.
pub(crate) enum Turned<'a> {
    GoesOn(Option<Batch<'a>>),
    Ends(Option<Met>),
}

/// How many instances a worker claims at once, at most, and how many results it commits as one.
pub(crate) const MOST_KEPT: usize = 256;

/// If fewer instances than this are ready, others may wait for what a worker keeps: once it keeps this number of results, it commits them before it claims more.
pub(crate) const FEW: usize = 8;

// How often a worker that found nothing to do looks beside the lock whether an instance is ready, before it takes the lock again to see. Each time that it finds nothing in a
// row doubles this, up to `DOUBLINGS` times.
const LOOKS: u32 = 64;

const DOUBLINGS: u32 = 6;

// How many of these looks come at once. Before each of the others the worker yields to other threads.
const SPINS: u32 = 8;

// How often a worker that gave back what it had claimed looks whether others have committed, before it lets instances wait. Others that run light bodies commit within that time.
const PATIENCE: u32 = 1024;

/// Runs instances until there is nothing to do, or a stop was asked for.
pub(crate) fn work<'a, J: Naming, D: Disk, P: Probe, R: Wait>(
    rt: &R,
    alloc: Global,
    hub: &'a Hub<J, D>,
    mut pass: WorkPass<J>,
    shelf: Shelf<'a>,
    probe: &P,
) -> Ended<J>
    ensures asked { result.met ≡ Some MetAsked → P.may_stop ≡ true }
    ensures full { Justifies J.opening result.met result.pass }
{
    let met = run_all(rt, alloc, hub, &mut pass, shelf, probe);
    if met.is_some() {
        hub.ask_stop(&mut pass);
    }
    Ended { pass, met }
}

// Runs them, and returns why the worker asks all to end, if it does.
fn run_all<'a, J: Naming, D: Disk, P: Probe, R: Wait>(
    rt: &R,
    alloc: Global,
    hub: &'a Hub<J, D>,
    pass: &mut WorkPass<J>,
    shelf: Shelf<'a>,
    probe: &P,
) -> Option<Met>
    ensures asked { result ≡ Some MetAsked → P.may_stop ≡ true }
    ensures full { Justifies J.opening result pass.new }
{
    let mut hand = match Hand::empty(alloc, shelf) {
        Ok(hand) => hand,
        Err(_) => return Some(Met::NoMemory),
    };
    let met = take_turns(rt, alloc, hub, pass, probe, &mut hand);
    hand.give_back(rt, hub, pass);
    hub.end_lead(pass.number());
    hub.wake();
    hand.end();
    met
}

// Takes one turn after another. The worker keeps results, and commits what it keeps when it is as many as it may keep, when no instance is to be claimed, after a body
// that took long, and before it ends.
fn take_turns<'a, J: Naming, D: Disk, P: Probe, R: Wait>(
    rt: &R,
    alloc: Global,
    hub: &'a Hub<J, D>,
    pass: &mut WorkPass<J>,
    probe: &P,
    hand: &mut Hand<'a>,
) -> Option<Met>
    requires { IsHand J.opening pass.old.seen hand.old }
    ensures hand { IsHand J.opening pass.new.seen hand.new }
    ensures asked { result ≡ Some MetAsked → P.may_stop ≡ true }
    ensures full { Justifies J.opening result pass.new }
{
    let mut kept = None;
    for _ in rt.forever() {
        match turn(rt, alloc, hub, pass, probe, hand, kept) {
            Turned::GoesOn(results) => kept = results,
            Turned::Ends(met) => return met,
        }
    }
    unreachable!()
}

// One turn of a worker: it runs an instance that it has claimed; or it commits what it keeps, or waits a little.
fn turn<'a, J: Naming, D: Disk, P: Probe, R: Wait>(
    rt: &R,
    alloc: Global,
    hub: &'a Hub<J, D>,
    pass: &mut WorkPass<J>,
    probe: &P,
    hand: &mut Hand<'a>,
    kept: Option<Batch<'a>>,
) -> Turned<'a>
    requires hand { IsHand J.opening pass.old.seen hand.old }
    requires kept { AreKept J.opening pass.old kept }
    ensures hand { IsHand J.opening pass.new.seen hand.new }
    ensures turned { IsTurned J.opening pass.new result }
    ensures asked { result ≡ Ends (Some MetAsked) → P.may_stop ≡ true }
{
    facts_are_told_apart();
    facts_go_on();
    results_are_meant();
    if hub.stop_asked(pass) {
        return Turned::Ends(commit_kept(rt, hub, pass, kept));
    }
    if hand.pace.gives_way(hub, pass.number()) {
        return give_way(rt, hub, pass, hand, kept);
    }
    if hand.pace.waits {
        wait_for_others(rt, hub, pass.number(), &mut hand.pace);
    }
    match hand.next(rt, hub, pass, &kept) {
        Ok((Some(task), _)) => run_task(rt, alloc, hub, pass, probe, hand, task, kept),
        Ok((None, busy)) => idle(rt, hub, pass, hand, kept, busy),
        Err(error) => ends(rt, hub, pass, stopped_by(error), kept),
    }
}

// Leaves the work to the worker that leads: gives back what is claimed, in its order, commits what is kept, and sleeps as long as the other leads; but only for some milliseconds, to see whether
// the other goes on. The greater its number, the longer it sleeps. It has no lock then.
fn give_way<'a, J: Naming, D: Disk, R: Wait>(
    rt: &R,
    hub: &'a Hub<J, D>,
    pass: &mut WorkPass<J>,
    hand: &mut Hand<'a>,
    kept: Option<Batch<'a>>,
) -> Turned<'a>
    requires hand { IsHand J.opening pass.old.seen hand.old }
    requires kept { AreKept J.opening pass.old kept }
    ensures hand { IsHand J.opening pass.new.seen hand.new }
    ensures turned { IsTurned J.opening pass.new result }
    ensures asked { result ≡ Ends (Some MetAsked) → ⊥ }
{
    facts_are_told_apart();
    facts_go_on();
    results_are_meant();
    hand.leave(rt, hub, pass);
    let met = commit_kept(rt, hub, pass, kept);
    let before = hub.batches();
    hub.nap(rt, (pass.number() as u64).saturating_add(1));
    hand.pace.note_nap(hub.batches() != before, hub.ready());
    goes_on_unless(met)
}

// No instance is to be claimed: what is kept is committed, and what may be claimed then is, with the same visit of the lock; or the worker waits a little for others; or it ends.
fn idle<'a, J: Naming, D: Disk, R: Wait>(
    rt: &R,
    hub: &'a Hub<J, D>,
    pass: &mut WorkPass<J>,
    hand: &mut Hand<'a>,
    kept: Option<Batch<'a>>,
    busy: bool,
) -> Turned<'a>
    requires hand { IsHand J.opening pass.old.seen hand.old }
    requires kept { AreKept J.opening pass.old kept }
    ensures hand { IsHand J.opening pass.new.seen hand.new }
    ensures turned { IsTurned J.opening pass.new result }
    ensures asked { result ≡ Ends (Some MetAsked) → ⊥ }
{
    match kept {
        Some(batch) => goes_on_unless(exchange(rt, hub, pass, hand, batch)),
        None => {
            if !busy {
                return Turned::Ends(None);
            }
            hub.end_lead(pass.number());
            look_for_work(hub, pass, hand.pace.vain);
            hand.pace.vain = hand.pace.vain.saturating_add(1);
            Turned::GoesOn(None)
        }
    }
}

/// The worker ends, since it met this, after what it keeps is committed.
pub(crate) fn ends<'a, J: Naming, D: Disk, R: Wait>(
    rt: &R,
    hub: &'a Hub<J, D>,
    pass: &mut WorkPass<J>,
    met: Met,
    kept: Option<Batch<'a>>,
) -> Turned<'a>
    requires not_full { met ≡ MetFull → ⊥ }
    requires kept { AreKept J.opening pass.old kept }
    ensures ahead { IsPrefix pass.old.seen pass.new.seen }
    ensures turned { IsTurned J.opening pass.new result }
    ensures asked { result ≡ Ends (Some MetAsked) → met ≡ MetAsked }
{
    match commit_kept(rt, hub, pass, kept) {
        Some(last) => Turned::Ends(Some(last)),
        None => Turned::Ends(Some(met)),
    }
}

/// The worker gives an instance back and ends, since it met this.
pub(crate) fn gives_up<'a, J: Naming, D: Disk, R: Wait>(
    rt: &R,
    hub: &'a Hub<J, D>,
    pass: &mut WorkPass<J>,
    hand: &mut Hand<'a>,
    task: Task,
    met: Met,
    kept: Option<Batch<'a>>,
) -> Turned<'a>
    requires not_full { met ≡ MetFull → ⊥ }
    requires hand { IsHand J.opening pass.old.seen hand.old }
    requires kept { AreKept J.opening pass.old kept }
    ensures hand { IsHand J.opening pass.new.seen hand.new }
    ensures turned { IsTurned J.opening pass.new result }
    ensures asked { result ≡ Ends (Some MetAsked) → met ≡ MetAsked }
{
    facts_are_told_apart();
    facts_go_on();
    results_are_meant();
    let _ = hand;
    let _ = settled(rt, hub.release(rt, pass, task));
    ends(rt, hub, pass, met, kept)
}

/// The worker goes on and keeps nothing, unless it met something.
pub(crate) fn goes_on_unless<'a>(met: Option<Met>) -> Turned<'a>
    ensures { result ≡ turned_by met }
{
    match met {
        None => Turned::GoesOn(None),
        Some(met) => Turned::Ends(Some(met)),
    }
}

// Waits a little for an instance to be ready, or until none runs or a stop is asked for. It takes no lock. Where the worker has looked in vain before, what is ready may
// be beyond the limit: then it waits for a commit, too.
fn look_for_work<J: Naming, D: Disk>(hub: &Hub<J, D>, pass: &mut WorkPass<J>, vain: u32)
    ensures { IsPrefix pass.old.seen pass.new.seen }
{
    let before = hub.batches();
    for look in 0..(LOOKS << vain.min(DOUBLINGS)) {
        if look < SPINS {
            spin_loop();
        } else {
            yield_now();
        }
        if has_found(hub, pass, vain, before) {
            return;
        }
    }
}

// Whether it need not wait: an instance is ready, where the worker has looked in vain before after a commit alone; or none runs, or a stop was asked for. `before` is how many records were committed when it
// began to look.
fn has_found<J: Naming, D: Disk>(
    hub: &Hub<J, D>,
    pass: &mut WorkPass<J>,
    vain: u32,
    before: usize,
) -> bool
    ensures { IsPrefix pass.old.seen pass.new.seen }
{
    let stopped = hub.stop_asked(pass);
    if stopped || hub.running() == 0 {
        return true;
    }
    hub.ready() != 0 && (vain == 0 || hub.batches() != before)
}

// Waits a little until others commit, or run nothing. It takes no lock. Or it sleeps for some milliseconds: the greater its number, the longer.
fn wait_for_others<J: Naming, D: Disk, R: Wait>(
    rt: &R,
    hub: &Hub<J, D>,
    number: usize,
    pace: &mut Pace,
) {
    let before = hub.batches();
    if pace.rests {
        hub.rest(rt, (number as u64).saturating_add(1));
        pace.note_waited(has_moved(hub, before));
        return;
    }
    for look in 0..PATIENCE {
        if look < SPINS {
            spin_loop();
        } else {
            yield_now();
        }
        if has_moved(hub, before) {
            pace.note_waited(true);
            return;
        }
    }
    pace.note_waited(false);
}

// Whether others have committed since there were `before` commits, or run nothing.
fn has_moved<J: Naming, D: Disk>(hub: &Hub<J, D>, before: usize) -> bool {
    hub.batches() != before || hub.running() == 0
}
