//! The passes when they are made, and when all are back.
ghost use Rattle.std.specs.Prelude.{◌≡◌, ◌+◌, ◌<◌, ◌≤◌, ◌++◌, [], ℕ, None, true, false, vec_capacity};
ghost use Rattle.std.specs.List.{AllByRecursion};
ghost use Rattle.passes.specs.Rule.{IsInHistory};
ghost use Rattle.passes.specs.Roll.{AllMade, has_number, new_passes};

use crate::{Board, Desk, Kind, Naming, Pass};
use std::marker::PhantomData;

/// Makes `count` passes; the first has the number `first`.
pub fn deal<J: Naming, K: Kind>(
    board: &Board<J>,
    desk: &mut Desk<J>,
    passes: &mut Vec<Pass<J, K>>,
    first: u8,
    count: u8,
)
    requires room { (passes.old.items ≡ []) × (count ≤ vec_capacity passes.old) }
    requires numbers { (number : ℕ) → number < first + count → K.is_numbered J.envs number }
    requires desk { desk.old ≡ record { book = record { history = []; passes = first }; guest = None } }
    ensures desk { desk.new ≡ record { book = record { history = []; passes = first + count }; guest = None } }
    ensures passes { passes.new.items ≡ new_passes first count }
{
    for number in 0..count {
        let badge = board.make(desk);
        passes.push_reserved(Pass {
            number: first as usize + number as usize,
            badge,
            of: PhantomData,
        });
    }
}

/// Takes in each pass, and compares it with the history.
pub fn gather<J: Naming, K: Kind>(board: &Board<J>, desk: &mut Desk<J>, mut passes: Vec<Pass<J, K>>)
    requires { desk.old.guest ≡ None }
    ensures desk { desk.new ≡ desk.old }
    ensures passes { AllByRecursion (IsInHistory desk.old.book.history) passes.items }
    ensures made { AllMade K.makes passes.items }
{
    while let Some(mut pass) = passes.pop() {
        board.show(desk, &mut pass);
    }
}

// Whether a pass of this number is here.
fn is_here<J: Naming, K: Kind>(passes: &[Pass<J, K>], number: usize) -> bool
    ensures { result ≡ has_number number passes.now }
{
    for pass in passes {
        if pass.number == number {
            return true;
        }
    }
    false
}

// Whether a pass of this number is among them.
fn is_among<J: Naming, E: Kind, W: Kind>(
    envs: &[Pass<J, E>],
    workers: &[Pass<J, W>],
    number: usize,
) -> bool
    ensures { result ≡ has_number number (envs.now ++ workers.now) }
{
    is_here(envs, number) || is_here(workers, number)
}

/// Whether a pass of each number below `count` is among them.
pub fn are_here<J: Naming, E: Kind, W: Kind>(
    envs: &[Pass<J, E>],
    workers: &[Pass<J, W>],
    count: usize,
) -> bool
    ensures all { result ≡ true → (number : ℕ) → number < count → has_number number (envs.now ++ workers.now) ≡ true }
    ensures missing { result ≡ false → (number : ℕ) × (number < count) × (has_number number (envs.now ++ workers.now) ≡ false) }
{
    for number in 0..count {
        if !is_among(envs, workers, number) {
            return false;
        }
    }
    true
}
