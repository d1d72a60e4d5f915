use maps::{Hint, MarkedCollections};
use std::marker::Model;
use terms::{Addr, ItemCollection, Producer};

/// The items of a store that is lent, each with whether it is marked.
#[derive(Drop)]
pub struct MarkedItems<'a> {
    pub(crate) marks: MarkedCollections<'a, (i64, Producer)>,
}

impl<'a> Model for MarkedItems<'a> {
    ghost use Rattle.std.specs.Prelude.{ℤ};
    ghost use Rattle.terms.specs.declared.producer.Producer.{Producer as By};
    ghost use Rattle.maps.specs.Codes.{marked_places_code};
    ghost use Rattle.maps.specs.Marked.{MarkedPlaces};
    ghost use Rattle.items.specs.Codes.{item_code};

    ghost Value = { MarkedPlaces (ℤ × By) };

    ghost coded = { marked_places_code item_code };

    ghost view = { λ m. m.marks };
}

impl<'a> MarkedItems<'a> {
    ghost use Rattle.std.specs.Prelude.{◌≡◌, None, IfSome};
    ghost use Rattle.std.specs.FinMap.{get};
    ghost use Rattle.maps.specs.Marked.{AreAllMarked, IsLeft, with_mark};
    ghost use Rattle.items.specs.Held.{place};

    /// The item at the address and who put it, if there is one, and whether it is marked. It looks first where the hint says, and sets the hint
    /// to where the address is or would be. So does the next one.
    pub fn get(&self, addr: Addr, hint: &mut Hint) -> Option<((i64, Producer), bool)>
        ensures { result ≡ get self.now (place addr) }
    {
        self.marks.get(addr.collection.0, addr.key, hint)
    }

    /// Marks the item at the address, if there is one, and returns what `get` returned before. It takes no memory.
    pub fn mark(&mut self, addr: Addr, hint: &mut Hint) -> Option<((i64, Producer), bool)>
        ensures before { result ≡ get self.old (place addr) }
        ensures after { self.new ≡ with_mark self.old (place addr) }
    {
        self.marks.mark(addr.collection.0, addr.key, hint)
    }

    /// The address of the first item that is not marked.
    pub fn first_unmarked(&self) -> Option<Addr>
        ensures some { IfSome result (λ address. IsLeft self.now (place address)) }
        ensures none { result ≡ None → AreAllMarked self.now }
    {
        match self.marks.first_unmarked() {
            Some((number, key)) => {
                let collection = ItemCollection(number);
                Some(Addr { collection, key })
            }
            None => None,
        }
    }
}
