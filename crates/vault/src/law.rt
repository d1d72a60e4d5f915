//! The law of what a store stands for. It is a contract, with nothing to run.
ghost use Rattle.vault.specs.Stands.{OneStore, AnyTail};

use sides::one_meaning_of_a_side;

/// Two files stand for at most one graph and one set of facts, whatever bytes come after the gate that ends the live
/// journal.
pub fn one_store()
    ensures one { OneStore }
    ensures tail { AnyTail }
{
    one_meaning_of_a_side();
}
