//! The certificate of a store: whether what it holds is what its graph's steps can have come to, whoever wrote its files.
//!
//! `verify` replays a store: it marks there what is replayed. It begins with what the environment put; it runs the body of each instance that is done in the store, once the
//! items that the body reads are marked, and marks what the body puts if the store has just that; and it looks for what is left. It says yes exactly if some legal events lead
//! to what the store holds (`IsReached` of `machine`).
#![tactic(auto)]

mod begin;
mod bodies;
mod certificate;
mod fault;
mod hints;
mod marking;
mod replay;
mod steps;
mod tried;
mod waiting;

pub use certificate::{Progress, VerifyError, verify};
