use crate::{Hint, MarkedMap, Stored};
use std::marker::Model;
use terms::Key;

/// The entries of several maps that are lent, each with whether it is marked, by place: the number of its map and its key.
#[derive(Drop)]
pub struct MarkedCollections<'a, V: Stored> {
    maps: Vec<MarkedMap<'a, V>>,
}

impl<'a, V: Stored> Model for MarkedCollections<'a, V> {
    ghost use Rattle.std.specs.Prelude.{◌≤◌, ◌^◌, length};
    ghost use Rattle.maps.specs.Codes.{marked_places_code};
    ghost use Rattle.maps.specs.Marked.{MarkedPlaces, marked_places};

    ghost Value = { MarkedPlaces V };

    ghost coded = { marked_places_code V.code };

    ghost view = { λ m. marked_places m.maps.items };

    ghost invariant = { λ m. length m.maps.items ≤ 2 ^ 16 };
}

impl<'a, V: Stored> MarkedCollections<'a, V> {
    ghost use Rattle.std.specs.Prelude.{◌≡◌, ◌≤◌, ◌^◌, None, IfSome, length, slice_get};
    ghost use Rattle.std.specs.FinMap.{get};
    ghost use Rattle.maps.specs.Marked.{AreAllMarked, IsLeft, in_map, with_mark};
    ghost use Rattle.maps.specs.Numbered.{Place};

    /// The entries of these maps, the first of which has number 0.
    pub fn of_maps(maps: Vec<MarkedMap<'a, V>>) -> Self
        requires { length maps.items ≤ 2 ^ 16 }
        ensures { (place : Place) → get result place ≡ in_map (slice_get maps.entry.items place.0) place.1 }
    {
        MarkedCollections { maps }
    }

    /// The value at the place, if there is one, and whether it is marked. It looks first where the hint says, and sets the hint to where the key
    /// is or would be. So does the next one.
    pub fn get(&self, number: u16, key: Key, hint: &mut Hint) -> Option<(V, bool)>
        ensures { result ≡ get self.now (number, key) }
    {
        match self.maps.get(number as usize) {
            Some(marks) => marks.get(key, hint),
            None => None,
        }
    }

    /// Marks the entry at the place, if there is one, and returns what `get` returned before. It takes no memory.
    pub fn mark(&mut self, number: u16, key: Key, hint: &mut Hint) -> Option<(V, bool)>
        ensures before { result ≡ get self.old (number, key) }
        ensures after { self.new ≡ with_mark self.old (number, key) }
    {
        if number as usize >= self.maps.len() {
            return None;
        }
        self.maps[number as usize].mark(key, hint)
    }

    /// The place of the first entry that is not marked. It looks at one word for each page of entries.
    pub fn first_unmarked(&self) -> Option<(u16, Key)>
        ensures some { IfSome result (IsLeft self.now) }
        ensures none { result ≡ None → AreAllMarked self.now }
    {
        for number in 0..self.maps.len() {
            if let Some(key) = self.maps[number].first_unmarked() {
                return Some((number as u16, key));
            }
        }
        None
    }
}
