//! The items that the outcomes of a batch put.
ghost use Rattle.std.specs.Prelude.{◌≡◌, ◌∷◌, [], slice_get};
ghost use Rattle.terms.specs.Same.{is_same as is_one};
ghost use Rattle.commit.specs.PutAs.{IsPutAs, puts_in, puts_said};

use crate::{Batch, Outcome};
use terms::{Addr, Put, facts_are_told_apart};

impl<'a> Batch<'a> {
    ghost use Rattle.terms.specs.Sets.{stated};
    ghost use Rattle.machine.specs.Machine.{IsValueAt};
    ghost use Rattle.commit.specs.Batch.{ends_said};

    /// The value of the item that its outcomes put at an address, if they put one. It goes through their puts, from the last outcome to the first.
    pub fn item(&self, address: Addr) -> Option<i64>
        ensures { IsValueAt (stated (ends_said self.now)) address result }
    {
        facts_are_told_apart();
        let mut left = self.outcomes.len();
        while left > 0 {
            left -= 1;
            match put_by(&self.outcomes[left], &address) {
                Some(value) => return Some(value),
                None => {}
            }
        }
        None
    }

    /// The puts of the outcome with this number; none if there is no such outcome, or if it is a fault.
    pub fn puts(&self, number: usize) -> &[Put]
        ensures { result.now ≡ puts_in (slice_get self.now.outcomes number) }
    {
        match self.outcomes.get(number) {
            Some(Outcome::Gave(given)) => given.puts().as_slice(),
            _ => &[],
        }
    }
}

// The value of the item that an outcome puts at an address.
fn put_by(outcome: &Outcome<'_>, address: &Addr) -> Option<i64>
    ensures { IsPutAs (puts_said outcome.now) address.now result }
{
    match outcome {
        Outcome::Gave(given) => put_among(given.puts().as_slice(), address),
        Outcome::Fault(_) => None,
    }
}

// The value of the item that one of these puts puts at an address.
fn put_among(puts: &[Put], address: &Addr) -> Option<i64>
    ensures { IsPutAs puts.now address.now result }
{
    for number in 0..puts.len() {
        match put_at(&puts[number], address) {
            Some(value) => return Some(value),
            None => {}
        }
    }
    None
}

// The value of the item that a put puts at an address.
fn put_at(put: &Put, address: &Addr) -> Option<i64>
    ensures { IsPutAs (put.now ∷ []) address.now result }
{
    match put {
        Put::Item(at, value) => {
            if is_same(at, address) {
                Some(*value)
            } else {
                None
            }
        }
        Put::Tag(_) => None,
    }
}

// Whether these are one address.
fn is_same(one: &Addr, other: &Addr) -> bool
    ensures { result ≡ is_one one.now other.now }
{
    one.cmp(other).is_eq()
}
