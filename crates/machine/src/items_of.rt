use items::Walk;
use std::marker::Model;
use terms::Addr;

/// The items of one collection that are left, each with its value, sorted by address. It allocates no memory.
#[derive(Drop)]
pub struct ItemsOf<'a> {
    pub(crate) items: Walk<'a>,
}

impl<'a> Model for ItemsOf<'a> {
    ghost use Rattle.std.specs.Prelude.{ℤ, List, map};
    ghost use Rattle.terms.specs.declared.name.Addr.{Addr as Address};

    ghost Value = { List (Address × ℤ) };

    ghost view = { λ w. map (λ entry. (entry.0, entry.1.0)) w.items };
}

impl<'a> Iterator for ItemsOf<'a> {
    type Item = (Addr, i64);

    ghost use Rattle.std.specs.Iterator.{YieldsFirst, item_count};

    ghost next_gives = { YieldsFirst (λ w. w) };

    ghost remaining = { item_count (λ w. w) };

    fn next(&mut self) -> Option<(Addr, i64)> {
        let (addr, (value, _)) = self.items.next()?;
        Some((addr, value))
    }
}
