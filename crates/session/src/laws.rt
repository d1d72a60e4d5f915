//! A law of sessions, with nothing to run.
ghost use Rattle.session.specs.OneText.{HasOneText};

use machine::{reached_and_quiet, reached_goes_on, reached_within};
use report::reports_once;
use steptree::ends_once;
use terms::{facts_are_told_apart, facts_go_on};

/// A script on a store has one text, whoever runs its steps and with however many workers, if each of its replies is one
/// that the graph and what was put alone lead to.
pub fn texts_are_one()
    ensures { HasOneText }
{
    facts_are_told_apart();
    facts_go_on();
    ends_once();
    reached_goes_on();
    reached_within();
    reached_and_quiet();
    reports_once();
}
