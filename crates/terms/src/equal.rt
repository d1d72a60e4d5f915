ghost use Rattle.std.specs.Prelude.{◌≡◌, ◌↔◌, true};
ghost use Rattle.terms.specs.Same.{TellsEqual, is_same};
ghost use Rattle.terms.specs.Equal.{is_key, is_addr, is_tag, is_inst, is_kind, is_producer, is_put, are_puts, is_event};

use crate::Event;

/// A law, with nothing to run: `==` is true exactly when the two values are the same, and so is the order's test of two addresses.
pub fn equals_are_one()
    ensures keys { TellsEqual is_key }
    ensures addresses { TellsEqual is_addr }
    ensures by_order { TellsEqual is_same }
    ensures tags { TellsEqual is_tag }
    ensures instances { TellsEqual is_inst }
    ensures kinds { TellsEqual is_kind }
    ensures producers { TellsEqual is_producer }
    ensures puts { TellsEqual is_put }
    ensures put_lists { TellsEqual are_puts }
    ensures events { TellsEqual is_event }
{}

/// Whether two events are the same, by `==`.
pub fn same_event(one: &Event, two: &Event) -> bool
    ensures { (result ≡ true) ↔ (one.now ≡ two.now) }
{
    equals_are_one();
    one == two
}
