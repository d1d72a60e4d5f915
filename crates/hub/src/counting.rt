//! How much a store holds, in the state that a pass knows.
ghost use Rattle.std.specs.Prelude.{◌≡◌};
ghost use Rattle.machine.specs.Counts.{AreCountsOf};
ghost use Rattle.passes.specs.Visits.{Shows};
ghost use Rattle.hub.specs.Opening.{facts_behind};
ghost use Rattle.hub.specs.Replies.{AddsNothing, Sees};

use crate::{Hub, Kept, WorkPass};
use disk::Disk;
use machine::Counts;
use passes::{Board, Naming};
use std::sync::Wait;

impl<J: Naming, D: Disk> Hub<J, D> {
    /// The numbers of items, of tags, of prescribed instances and of those that are done, in the state after what the pass
    /// has then seen.
    pub fn counts<R: Wait>(&self, rt: &R, pass: &mut WorkPass<J>) -> Counts
        ensures seen { Sees J.opening pass.old pass.new × AddsNothing pass.old pass.new }
        ensures counts { AreCountsOf J.opening.graph (facts_behind J.opening pass.new.seen) result }
    {
        self.locked(rt).counts(&self.board, pass)
    }
}

impl<J: Naming, D: Disk> Kept<J, D> {
    /// As the core's `counts`.
    pub fn counts(&mut self, board: &Board<J>, pass: &mut WorkPass<J>) -> Counts
        ensures same { (self.new ≡ self.old) × Shows self.old.history pass.old pass.new }
        ensures seen { Sees J.opening pass.old pass.new × AddsNothing pass.old pass.new }
        ensures counts { AreCountsOf J.opening.graph (facts_behind J.opening pass.new.seen) result }
    {
        let counts = self.core.counts();
        board.show(&mut self.desk, pass);
        counts
    }
}
