ghost use Rattle.std.specs.Prelude.{◌≡◌, ◌≤◌, ◌<◌, IfOk, MatchOption, drop, length, take, vec_capacity};
ghost use Rattle.std.specs.List.{AllByRecursion};
ghost use Rattle.machine.specs.Group.{IsDone, puts_of_all};
ghost use Rattle.machine.specs.Machine.{puts_of as its_puts};
ghost use Rattle.machine.specs.Together.{AreNewUpTo, IsEnd, IsFault, IsFaultNext, IsOneNotNew, TellsNew};

use crate::absence::are_all_absent;
use crate::distinct::{all_differ, gather_all};
use crate::{Machine, Refusal};
use items::Items;
use std::alloc::AllocError;
use terms::{Addr, Event, FaultKind, Put, facts_are_told_apart, puts_are_stated};

/// How a group of ends of instances comes together.
#[derive(Clone, Copy, Debug, PartialEq, Eq)]
pub struct Ended {
    /// How many of them come as they are, as ends of instances that are done.
    pub done: usize,
    /// The fault that ends the group behind these; none only if all of them are done.
    pub stopped: Option<FaultKind>,
}

impl Machine {
    ghost use Rattle.std.specs.Prelude.{◌≡◌, IfErr, IfOk, OnErr, OnOk};
    ghost use Rattle.terms.specs.declared.event.Event.{Event as Its};
    ghost use Rattle.graph.specs.Fits.{HasNoFault};
    ghost use Rattle.machine.specs.Group.{AreEndsHere, EndsTogether};
    ghost use Rattle.machine.specs.Legal.{IsLegal};
    ghost use Rattle.machine.specs.Machine.{RefusesEnd, facts};

    /// Whether any instance may end here. If the store has a fault, none may.
    pub fn may_end_any(&self) -> Result<(), Refusal>
        ensures working { OnOk result (HasNoFault (facts self.now)) }
        ensures illegal { OnErr result ((event : Its) → IsLegal self.now.graph (facts self.now) event → ⊥) }
        ensures refused { IfErr result (RefusesEnd (facts self.now)) }
    {
        self.is_working()
    }

    /// How far these ends come together, each after those before it: up to the first fault. An end is a fault if its body says so,
    /// or if an item of its puts is there already, or appears twice among its puts and those before it.
    ///
    /// It looks each item up, and sorts the addresses of all items once. If two items meet, it halves the group until it has the
    /// place, and does the same for each half. The error is that there is no memory for the addresses; then nothing changed.
    pub fn look_at_ends(&mut self, ends: &[Event]) -> Result<Ended, AllocError>
        requires working { HasNoFault (facts self.old) }
        requires ends { AreEndsHere self.old ends.now }
        ensures together { IfOk result (EndsTogether self.old.graph (facts self.old) ends.now) }
        ensures same { self.new ≡ self.old }
    {
        self.memory.instances.are_there_together();
        facts_are_told_apart();
        puts_are_stated();
        let ended = up_to_fault(ends);
        if are_new_together(&self.memory.items, &mut self.addresses, &ends[..ended.done])? {
            return Ok(ended);
        }
        let done = new_in_front(&self.memory.items, &mut self.addresses, ends, ended.done)?;
        Ok(Ended {
            done,
            stopped: Some(FaultKind::DoublePut),
        })
    }
}

// How many of these ends, from the first one on, have puts that are new together, if those of the first `most` are not. Each turn
// halves the range.
fn new_in_front(
    items: &Items,
    addresses: &mut Vec<Addr>,
    ends: &[Event],
    most: usize,
) -> Result<usize, AllocError>
    requires within { most ≤ length ends.now }
    requires done { AllByRecursion IsDone (take most ends.now) }
    requires not_new { IsOneNotNew items.now (puts_of_all (take most ends.now)) }
    ensures below { IfOk result (λ number. number < most) }
    ensures new { IfOk result (AreNewUpTo items.now ends.now) }
    ensures capacity { vec_capacity addresses.old ≤ vec_capacity addresses.new }
{
    let mut new = 0;
    let mut not_new = most;
    while not_new - new > 1 {
        let middle = new + (not_new - new) / 2;
        if are_new_together(items, addresses, &ends[..middle])? {
            new = middle;
        } else {
            not_new = middle;
        }
    }
    Ok(new)
}

// Whether the puts of these ends of instances that are done are new together.
fn are_new_together(
    items: &Items,
    addresses: &mut Vec<Addr>,
    ends: &[Event],
) -> Result<bool, AllocError>
    requires { AllByRecursion IsDone ends.now }
    ensures new { IfOk result (TellsNew items.now (puts_of_all ends.now)) }
    ensures capacity { vec_capacity addresses.old ≤ vec_capacity addresses.new }
{
    if !are_all_absent(items, ends) {
        return Ok(false);
    }
    gather_all(addresses, ends)?;
    Ok(all_differ(addresses))
}

// How these ends come together if their puts are new: up to the first of them that is a fault.
fn up_to_fault(ends: &[Event]) -> Ended
    requires { AllByRecursion IsEnd ends.now }
    ensures within { result.done ≤ length ends.now }
    ensures done { AllByRecursion IsDone (take result.done ends.now) }
    ensures next { IsFaultNext result.stopped (drop result.done ends.now) }
{
    for number in 0..ends.len() {
        if let Some(kind) = fault_of(&ends[number]) {
            return Ended {
                done: number,
                stopped: Some(kind),
            };
        }
    }
    Ended {
        done: ends.len(),
        stopped: None,
    }
}

// The fault of an end, or none if its instance is done.
fn fault_of(end: &Event) -> Option<FaultKind>
    requires { IsEnd end.now }
    ensures { MatchOption result (IsDone end.now) (λ kind. IsFault kind end.now) }
{
    match end {
        Event::Stopped(_, kind) => Some(*kind),
        _ => None,
    }
}

/// The puts of an instance that is done.
pub(crate) fn puts_of(end: &Event) -> &[Put]
    requires { IsDone end.now }
    ensures { result.now ≡ its_puts end.now }
{
    match end {
        Event::Done(_, puts) => puts.as_slice(),
        _ => &[],
    }
}
