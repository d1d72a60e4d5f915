ghost use Rattle.std.specs.Prelude.{IsTrue};
ghost use Rattle.vault.specs.Commits.{HalfIsNoBeginning, CallsGoOn, RestGoesOn, GatesAreKept, OpeningFinds, StoreGoesOn};

use crate::one_store;
use disk::Disk;
use sides::sides_go_on;
use terms::{facts_are_told_apart, facts_go_on};

/// A store from call to call, by its commits.
///
/// They begin at a state: at nothing, or at what an opening gave. An append that returns `Ok` adds its commit. A crash at
/// any moment leaves a prefix of the commit order that has each acknowledged commit, and none in part. After a crash, and
/// after openings that were cut off or refused, an opening gives the store of such a prefix to the next call, and never
/// says that there is none. What is said of first bytes holds if each file has one.
pub fn stores_go_on<D: Disk>()
    ensures calls { CallsGoOn D.Disk }
    ensures rest { IsTrue D.is_honest → RestGoesOn D.Disk }
    ensures gates { IsTrue D.is_honest → GatesAreKept D.Disk }
    ensures finds { OpeningFinds D.Disk }
    ensures goes_on { IsTrue D.is_honest → StoreGoesOn D.Disk }
{
    facts_are_told_apart();
    facts_go_on();
    sides_go_on();
    one_store();
}

/// A worked example, with nothing to run: what the first event of a commit states, without what the second one does, is
/// no prefix.
pub fn half_a_commit()
    ensures { HalfIsNoBeginning }
{
    one_store();
}
