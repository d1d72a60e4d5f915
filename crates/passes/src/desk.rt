use crate::Naming;
use crate::rule::Keeper;
use std::marker::{Model, PhantomData};

/// The keeper's seat. A contract sees the book, and the pass that is lent to the keeper.
#[derive(Drop)]
pub struct Desk<J: Naming> {
    pub(crate) seat: Keeper,
    pub(crate) of: PhantomData<J>,
}

impl<J: Naming> Model for Desk<J> {
    ghost use Rattle.std.specs.Prelude.{◌≡◌, []};
    ghost use Rattle.passes.specs.Known.{desk, Desk as Seen};
    ghost use Rattle.passes.specs.Steps.{desk_of};

    ghost Value = { Seen };

    ghost view = { λ d. desk_of d.seat.me.0 };

    ghost invariant = { λ d. (d.seat.table_id ≡ J.table) × (d.seat.me ≡ (desk (desk_of d.seat.me.0), [])) };
}
