//! Deques of tickets: each worker has one, and the others steal from it.
//!
//! A `Deque` is its worker's end: contracts see the tickets that were pushed with it and those that came out to it. A `Thief` takes tickets out from any thread. The rule of a deque is
//! `IsBalanced`: what all pushed is what came out to all, and what the deque holds. So a ticket that was pushed once comes out once at most, by the law `each_comes_out_once`.
#![tactic(auto)]

mod deque;
mod once_each;

pub use deque::{Deque, Thief};
pub use once_each::{Log, each_comes_out_once};
