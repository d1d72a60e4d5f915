//! Worked examples of what a graph means. Each is a contract, with nothing to run.
ghost use Rattle.machine.specs.Examples.{FiveNumbers, OneNumber, Conflict, PutTwice, Refused};
ghost use Rattle.machine.specs.GroupExample.{TwoMeet};
ghost use Rattle.machine.specs.Mixed.{MixedIsRefused};
ghost use Rattle.machine.specs.Putting.{EachIsCounted};
ghost use Rattle.machine.specs.PutsExample.{TagIsRepeated};

use steptree::ends_once;
use terms::facts_are_told_apart;

/// Four Fibonacci numbers in two orders; one number alone; and a number that is already there.
pub fn fibonacci_numbers()
    ensures five_numbers { FiveNumbers }
    ensures one_number { OneNumber }
    ensures conflict { Conflict }
{
    facts_are_told_apart();
    ends_once();
}

/// A step that puts one item twice is at fault, and cannot be done.
pub fn item_put_twice()
    ensures { PutTwice }
{
    facts_are_told_apart();
    ends_once();
}

/// What the definitions reject: sets that are not quiet, not closed or not meant, and lists that are not legal.
pub fn refused_examples()
    ensures { Refused }
{
    facts_are_told_apart();
    ends_once();
}

/// A state within the meaning that no legal list reaches: two steps put one item, and a third has read a value that is not
/// there.
pub fn meant_and_not_reached()
    ensures { MixedIsRefused }
{
    facts_are_told_apart();
    ends_once();
}

/// Two ends that put one item: of the group the first is done, and the second is at fault.
pub fn two_ends_meet()
    ensures { TwoMeet }
{
    facts_are_told_apart();
    ends_once();
}

/// A tag that the environment puts twice: of the two puts the first comes.
pub fn tag_is_repeated()
    ensures { TagIsRepeated }
{
    facts_are_told_apart();
}

/// The room that a list of puts needs is counted for each collection by itself.
pub fn room_is_counted()
    ensures { EachIsCounted }
{}
