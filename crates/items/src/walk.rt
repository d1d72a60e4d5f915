use std::marker::Model;
use terms::{Addr, ItemCollection, Producer};

/// The items that are left of a walk, in the order of their addresses. It does not allocate.
#[derive(Drop)]
pub struct Walk<'a> {
    pub(crate) entries: maps::Walk<'a, (i64, Producer)>,
}

impl<'a> Model for Walk<'a> {
    ghost use Rattle.std.specs.Prelude.{ℤ, List, map};
    ghost use Rattle.terms.specs.declared.name.Addr.{Addr as Address};
    ghost use Rattle.terms.specs.declared.producer.Producer.{Producer as By};
    ghost use Rattle.items.specs.Held.{address_at};

    ghost Value = { List (Address × (ℤ × By)) };

    ghost view = { λ w. map (λ entry. (address_at entry.0, entry.1)) w.entries };
}

impl<'a> Iterator for Walk<'a> {
    type Item = (Addr, (i64, Producer));

    ghost use Rattle.std.specs.Iterator.{YieldsFirst, item_count};

    ghost next_gives = { YieldsFirst (λ w. w) };

    ghost remaining = { item_count (λ w. w) };

    fn next(&mut self) -> Option<(Addr, (i64, Producer))> {
        let ((number, key), item) = self.entries.next()?;
        let collection = ItemCollection(number);
        Some((Addr { collection, key }, item))
    }
}
