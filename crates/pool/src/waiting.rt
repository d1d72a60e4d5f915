//! The runs that a worker keeps while their instances wait.
ghost use Rattle.std.specs.Prelude.{◌≡◌, [], List, IfSome};
ghost use Rattle.hub.specs.Opening.{facts_behind};
ghost use Rattle.hub.specs.Running.{WaitsIn};
ghost use Rattle.passes.specs.Opening.{Opening};
ghost use Rattle.pool.specs.Worked.{AreWaiting, WaitsSince};
ghost use Rattle.terms.specs.Commits.{Commit};

use hub::WorkPass;
use machine::results_are_meant;
use passes::Naming;
use std::alloc::Global;
use std::mem;
use steplang::{Parked, Run};
use terms::{Inst, facts_are_told_apart, facts_go_on, inst_order, orders_are_total};

// How many places there are: a power of two, of `PLACE_BITS` bits.
const PLACES: usize = 32_768;

const PLACE_BITS: u32 = 15;

// A run is kept if it has read this number of items or made this number of statements. A shorter one is run anew in less time than a visit of the lock takes, which it saves for
// each of its reads.
const MANY_READS: usize = 8;

const MANY_STATEMENTS: u32 = 256;

// How many items the runs that are kept have read together, at most. Each takes 56 bytes.
const MOST_READS: usize = 2_097_152;

/// The runs that a worker keeps while their instances wait, so that their bodies need not be run anew: each at the place that its instance's name gives, one at a place.
#[derive(Drop)]
pub(crate) struct Waiting<'a> {
    alloc: Global,
    /// The places. There are none before the first run.
    pub(crate) places: Vec<Option<Box<Parked<'a>>>>,
    // How many items these runs have read, together.
    reads: usize,
}

impl<'a> Waiting<'a> {
    /// No runs. It does not allocate.
    pub(crate) fn none(alloc: Global) -> Waiting<'a>
        ensures { result.places.items ≡ [] }
    {
        Waiting {
            alloc,
            places: Vec::new(alloc),
            reads: 0,
        }
    }

    /// Takes out the run of this instance, if it is kept.
    pub(crate) fn take<J: Naming>(&mut self, pass: &WorkPass<J>, instance: &Inst) -> Option<Run<'a>>
        requires { AreWaiting J.opening pass.now.seen self.old }
        ensures waiting { AreWaiting J.opening pass.now.seen self.new }
        ensures run { IfSome result (WaitsIn J.opening.graph (facts_behind J.opening pass.now.seen) instance.now) }
    {
        facts_are_told_apart();
        facts_go_on();
        results_are_meant();
        orders_are_total();
        if self.places.is_empty() {
            return None;
        }
        let place = place_of(instance);
        if place >= self.places.len() {
            return None;
        }
        let Some(parked) = mem::replace(&mut self.places[place], None) else {
            return None;
        };
        if inst_order(&parked.instance(), instance).is_eq() {
            self.reads = self.reads.saturating_sub(parked.reads().len());
            return Some(Box::into_inner(parked).resume());
        }
        self.places[place] = Some(parked);
        None
    }

    /// Keeps a run, in place of what is at its place; unless it would be run anew in little time, or there is no room or no memory for it.
    pub(crate) fn keep<J: Naming>(&mut self, pass: &WorkPass<J>, parked: Parked<'a>)
        requires waiting { AreWaiting J.opening pass.now.seen self.old }
        requires run { WaitsSince J.opening pass.now.seen parked }
        ensures { AreWaiting J.opening pass.now.seen self.new }
    {
        if self.takes(&parked) {
            self.put(pass, parked);
        }
    }

    // Puts a run at its place.
    fn put<J: Naming>(&mut self, pass: &WorkPass<J>, parked: Parked<'a>)
        requires waiting { AreWaiting J.opening pass.now.seen self.old }
        requires run { WaitsSince J.opening pass.now.seen parked }
        ensures { AreWaiting J.opening pass.now.seen self.new }
    {
        let _ = pass;
        let place = place_of(&parked.instance());
        if place >= self.places.len() {
            return;
        }
        let count = parked.reads().len();
        let Ok(parked) = Box::new(self.alloc, parked) else {
            return;
        };
        let before = reads_of(&self.places[place]);
        self.reads = self.reads.saturating_sub(before).saturating_add(count);
        self.places[place] = Some(parked);
    }

    // Whether it takes a run, for which it has places then.
    fn takes(&mut self, parked: &Parked<'_>) -> bool
        ensures { (opening : Opening) (seen : List Commit) → AreWaiting opening seen self.old → AreWaiting opening seen self.new }
    {
        let reads = self.reads.saturating_add(parked.reads().len());
        if !is_long(parked) || reads > MOST_READS {
            return false;
        }
        self.make_places()
    }

    // Makes the places, if there are none. Says whether they are there.
    fn make_places(&mut self) -> bool
        ensures { (opening : Opening) (seen : List Commit) → AreWaiting opening seen self.old → AreWaiting opening seen self.new }
    {
        if !self.places.is_empty() {
            return true;
        }
        let Ok(()) = self.places.reserve(PLACES) else {
            return false;
        };
        for _ in 0..PLACES {
            self.places.push_reserved(None);
        }
        true
    }
}

// Whether it takes longer to run the body anew than to keep the run.
fn is_long(parked: &Parked<'_>) -> bool {
    parked.reads().len() >= MANY_READS || parked.statements() >= MANY_STATEMENTS
}

// How many items the run at a place has read.
fn reads_of(place: &Option<Box<Parked<'_>>>) -> usize {
    match place {
        Some(parked) => parked.reads().len(),
        None => 0,
    }
}

// The place of an instance: the first bits of a product in which all parts of its name take part.
fn place_of(instance: &Inst) -> usize {
    let mut mixed = instance.collection.0 as u64;
    for component in instance.key.components() {
        mixed = (mixed ^ component.cast_unsigned()).wrapping_mul(0x9e37_79b9_7f4a_7c15);
        mixed ^= mixed >> 32;
    }
    (mixed.wrapping_mul(0x9e37_79b9_7f4a_7c15) >> (u64::BITS - PLACE_BITS)) as usize
}
