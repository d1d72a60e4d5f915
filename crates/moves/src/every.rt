ghost use Rattle.std.specs.Prelude.{IsTrue};
ghost use Rattle.moves.specs.Every.{ForEverySchedule};

use disk::Disk;
use machine::{reached_and_quiet, reached_goes_on, reached_within, unfinished_wait};
use terms::facts_are_told_apart;
use vault::{one_store, stores_go_on};

/// The theorem on every list of moves from a creation that returned `Ok`, on an honest disk; there is nothing to run.
///
/// However often a store is stopped, before or within any write of its disk: opening it again gives the items, tags and finished
/// steps after a prefix of the commit order that has every acknowledged put and step. Whichever steps are then committed, in
/// whatever order: these are within the meaning of the graph on what the environment put. If the store is quiet, they are
/// exactly that meaning. No opening says that the files are damaged, or no store.
pub fn for_every_schedule<D: Disk>()
    ensures { IsTrue D.is_honest → ForEverySchedule D.Disk }
{
    facts_are_told_apart();
    stores_go_on::<D>();
    one_store();
    reached_goes_on();
    reached_within();
    reached_and_quiet();
    unfinished_wait();
}
