//! The laws of what a side stands for. Each is a contract, with nothing to run.
ghost use Rattle.sides.specs.Side.{OneMeaning, StandsWithGeneration, OneGeneration, AnyRest};
ghost use Rattle.sides.specs.SideLaws.{HasJournal, StaysAlike, GrowsByCommits, SideAsSet, SideFits, BeginsSide, HeldOnce};

use codec::{spellings_of_commits, spellings_of_images};
use graph::{fitting, one_reading};
use holdings::images_of_maps;
use journal::one_meaning;
use terms::{MAX_COMPONENTS, facts_are_told_apart, facts_go_on};

/// The bytes of a side stand for at most one graph, one generation and one set of facts, whatever bytes come after the gate
/// that ends its journal.
pub fn one_meaning_of_a_side()
    ensures one { OneMeaning }
    ensures generation { StandsWithGeneration }
    ensures one_generation { OneGeneration }
    ensures rest { AnyRest }
{
    spellings_of_commits(MAX_COMPONENTS);
    spellings_of_images(MAX_COMPONENTS);
    one_meaning();
    one_reading();
}

/// What a side's bytes stand for when other bytes follow its image: a journal of the same commits gives the same, a journal
/// of some commits more gives what these leave. The facts of a side fit its graph, and an image that fits makes a side.
pub fn sides_go_on()
    ensures journal { HasJournal }
    ensures alike { StaysAlike }
    ensures grows { GrowsByCommits }
    ensures as_set { SideAsSet }
    ensures fits { SideFits }
    ensures begins { BeginsSide }
{
    facts_are_told_apart();
    facts_go_on();
    fitting();
}

/// What is held has at most one item at an address.
pub fn one_item_each()
    ensures { HeldOnce }
{
    facts_are_told_apart();
    images_of_maps();
}
