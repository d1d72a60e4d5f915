//! What a call under the lock makes with its pass: the commit of the core.
ghost use Rattle.std.specs.List.{AllByRecursion};
ghost use Rattle.std.specs.Prelude.{◌≡◌, ◌+◌, ◌<◌, ◌^◌, [], ◌∷◌, None, length};
ghost use Rattle.machine.specs.Group.{cut};
ghost use Rattle.commit.specs.Batch.{ends_said};
ghost use Rattle.commit.specs.Runs.{IsEnd};
ghost use Rattle.passes.specs.Known.{commits, count_of, writing_by};
ghost use Rattle.passes.specs.Visits.{Writes};
ghost use Rattle.commit.specs.Outcome.{end_of};
ghost use Rattle.terms.specs.declared.event.Event.TheVariants.{EnvItem, EnvTag};

use crate::{Env, EnvPass, Work, WorkPass};
use commit::{Batch, Committed, Outcome};
use machine::Ended;
use passes::{Board, Committing, Desk, Naming};
use std::snapshot::Snapshot;
use terms::{Addr, Inst, Tag};

/// Puts the environment's item with its pass.
pub(crate) fn record_item<J: Naming, M: Committing>(
    board: &Board<J>,
    desk: &mut Desk<J>,
    pass: &mut EnvPass<J>,
    addr: Addr,
    value: i64,
)
    requires alone { desk.old.guest ≡ None }
    requires room { count_of (commits desk.old.book.history) + 1 < 2 ^ 64 }
    requires commit { M.commit ≡ EnvItem addr value ∷ [] }
    ensures desk { desk.new ≡ writing_by pass.old.number (EnvItem addr value ∷ []) desk.old }
    ensures writes { Writes (EnvItem addr value ∷ []) desk.old.book.history desk.new.book.history pass.old pass.new }
{
    let _ = (addr, value);
    board.record::<Env, M>(desk, pass, 1);
}

/// Puts the environment's tag with its pass.
pub(crate) fn record_tag<J: Naming, M: Committing>(
    board: &Board<J>,
    desk: &mut Desk<J>,
    pass: &mut EnvPass<J>,
    tag: Tag,
)
    requires alone { desk.old.guest ≡ None }
    requires room { count_of (commits desk.old.book.history) + 1 < 2 ^ 64 }
    requires commit { M.commit ≡ EnvTag tag ∷ [] }
    ensures desk { desk.new ≡ writing_by pass.old.number (EnvTag tag ∷ []) desk.old }
    ensures writes { Writes (EnvTag tag ∷ []) desk.old.book.history desk.new.book.history pass.old pass.new }
{
    let _ = tag;
    board.record::<Env, M>(desk, pass, 1);
}

/// Makes the end of an instance with the pass of its worker.
pub(crate) fn record_end<J: Naming, M: Committing>(
    board: &Board<J>,
    desk: &mut Desk<J>,
    pass: &mut WorkPass<J>,
    committed: Committed,
    instance: Inst,
    outcome: &Snapshot<Outcome<'_>>,
)
    requires alone { desk.old.guest ≡ None }
    requires room { count_of (commits desk.old.book.history) + 1 < 2 ^ 64 }
    requires commit { M.commit ≡ end_of committed instance outcome.now.value ∷ [] }
    ensures desk { desk.new ≡ writing_by pass.old.number (end_of committed instance outcome.now.value ∷ []) desk.old }
    ensures writes { Writes (end_of committed instance outcome.now.value ∷ []) desk.old.book.history desk.new.book.history pass.old pass.new }
{
    let _ = (committed, instance);
    let _ = outcome;
    board.record::<Work, M>(desk, pass, 1);
}

/// Makes the ends of a batch, as far as they came, with the pass of their worker. `count` is how many came.
pub(crate) fn record_ends<J: Naming, M: Committing>(
    board: &Board<J>,
    desk: &mut Desk<J>,
    pass: &mut WorkPass<J>,
    ended: Ended,
    count: usize,
    batch: &Snapshot<Batch<'_>>,
)
    requires alone { desk.old.guest ≡ None }
    requires commit { M.commit ≡ cut ended (ends_said batch.now.value) }
    requires count { count ≡ length (cut ended (ends_said batch.now.value)) }
    requires ends { AllByRecursion IsEnd (cut ended (ends_said batch.now.value)) }
    requires room { count_of (commits desk.old.book.history) + count < 2 ^ 64 }
    ensures desk { desk.new ≡ writing_by pass.old.number (cut ended (ends_said batch.now.value)) desk.old }
    ensures writes { Writes (cut ended (ends_said batch.now.value)) desk.old.book.history desk.new.book.history pass.old pass.new }
{
    let _ = ended;
    let _ = batch;
    board.record::<Work, M>(desk, pass, count as u64);
}
