//! How a worker commits what it keeps, as one record.
ghost use Rattle.std.specs.Prelude.{◌≡◌, true, IfErr, None, Ok, Some};
ghost use mathlib.Core.List.{IsPrefix};
ghost use Rattle.commit.specs.Batch.{HaveOutcomes};
ghost use Rattle.hub.specs.Opening.{facts_behind};
ghost use Rattle.pool.specs.declared.worker.Met.TheVariants.{Asked as MetAsked};
ghost use Rattle.pool.specs.Worked.{AreKept, HasAll, IsHand, Justifies};

use crate::hand::Hand;
use crate::settling::settled_all;
use crate::worker::Met;
use commit::Batch;
use disk::Disk;
use hub::{Hub, Visit, WorkPass};
use machine::results_are_meant;
use passes::Naming;
use std::sync::Wait;
use terms::{facts_are_told_apart, facts_go_on};

/// Commits what is kept, if anything is.
pub(crate) fn commit_kept<'a, J: Naming, D: Disk, R: Wait>(
    rt: &R,
    hub: &'a Hub<J, D>,
    pass: &mut WorkPass<J>,
    kept: Option<Batch<'a>>,
) -> Option<Met>
    requires { AreKept J.opening pass.old kept }
    ensures ahead { IsPrefix pass.old.seen pass.new.seen }
    ensures asked { result ≡ Some MetAsked → ⊥ }
    ensures full { Justifies J.opening result pass.new }
{
    match kept {
        Some(batch) => commit(rt, hub, pass, batch),
        None => None,
    }
}

/// Commits the outcomes of a batch.
pub(crate) fn commit<'a, J: Naming, D: Disk, R: Wait>(
    rt: &R,
    hub: &'a Hub<J, D>,
    pass: &mut WorkPass<J>,
    batch: Batch<'a>,
) -> Option<Met>
    requires { HaveOutcomes J.opening.graph (facts_behind J.opening pass.old.seen) batch.tasks batch.outcomes }
    ensures ahead { IsPrefix pass.old.seen pass.new.seen }
    ensures asked { result ≡ Some MetAsked → ⊥ }
    ensures full { Justifies J.opening result pass.new }
{
    match commit_before(rt, hub, pass, batch) {
        Ok(_) => None,
        Err(met) => Some(met),
    }
}

/// Commits the outcomes of a batch. Says whether all of them came as they are: if a fault did, the store is stopped.
pub(crate) fn commit_before<'a, J: Naming, D: Disk, R: Wait>(
    rt: &R,
    hub: &'a Hub<J, D>,
    pass: &mut WorkPass<J>,
    batch: Batch<'a>,
) -> Result<bool, Met>
    requires { HaveOutcomes J.opening.graph (facts_behind J.opening pass.old.seen) batch.tasks batch.outcomes }
    ensures ahead { IsPrefix pass.old.seen pass.new.seen }
    ensures all { result ≡ Ok true → HasAll J.opening pass.old pass.new batch.entry }
    ensures asked { IfErr result (λ met. met ≡ MetAsked → ⊥) }
    ensures full { IfErr result (λ met. Justifies J.opening (Some met) pass.new) }
{
    let mut visit = hub.visit(rt);
    commit_with(rt, &mut visit, pass, batch)
}

/// Commits the outcomes of a batch, and claims the next instances.
pub(crate) fn exchange<'a, J: Naming, D: Disk, R: Wait>(
    rt: &R,
    hub: &'a Hub<J, D>,
    pass: &mut WorkPass<J>,
    hand: &mut Hand<'a>,
    batch: Batch<'a>,
) -> Option<Met>
    requires batch { HaveOutcomes J.opening.graph (facts_behind J.opening pass.old.seen) batch.tasks batch.outcomes }
    requires hand { IsHand J.opening pass.old.seen hand.old }
    ensures hand { IsHand J.opening pass.new.seen hand.new }
    ensures asked { result ≡ Some MetAsked → ⊥ }
    ensures full { Justifies J.opening result pass.new }
{
    let mut visit = hub.visit(rt);
    match commit_with(rt, &mut visit, pass, batch) {
        Ok(_) => {
            claim_next(&mut visit, pass, hand);
            None
        }
        Err(met) => Some(met),
    }
}

// Claims the next instances, no more than the hand has room for, unless they are claimed by tickets. What is refused here is asked for again by the next claim.
fn claim_next<J: Naming, D: Disk>(
    visit: &mut Visit<'_, J, D>,
    pass: &mut WorkPass<J>,
    hand: &mut Hand<'_>,
)
    requires { IsHand J.opening pass.old.seen hand.old }
    ensures { IsHand J.opening pass.new.seen hand.new }
{
    if hand.pace.shares() {
        return;
    }
    let most = hand.pace.most_kept().saturating_sub(hand.claimed.len());
    let _ = visit.claim_some(pass, &mut hand.claimed, most);
}

// Commits the outcomes of a batch.
fn commit_with<'a, J: Naming, D: Disk, R: Wait>(
    rt: &R,
    visit: &mut Visit<'_, J, D>,
    pass: &mut WorkPass<J>,
    batch: Batch<'a>,
) -> Result<bool, Met>
    requires { HaveOutcomes J.opening.graph (facts_behind J.opening pass.old.seen) batch.tasks batch.outcomes }
    ensures ahead { IsPrefix pass.old.seen pass.new.seen }
    ensures all { result ≡ Ok true → HasAll J.opening pass.old pass.new batch.entry }
    ensures asked { IfErr result (λ met. met ≡ MetAsked → ⊥) }
    ensures full { IfErr result (λ met. Justifies J.opening (Some met) pass.new) }
{
    facts_are_told_apart();
    facts_go_on();
    // What is known of every batch: it has an instance.
    batch.len();
    settled_all(rt, visit.finish_all(pass, batch))
}
