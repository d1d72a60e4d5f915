use crate::Stored;
use crate::page::Page;
use std::marker::Model;
use terms::Key;

/// The entries that are left of a map, in the order of their keys. It does not allocate.
#[derive(Drop)]
pub struct KeyWalk<'a, V: Stored> {
    // The words of all entries.
    pub(crate) words: &'a [i64],
    // What is left: the first of these pages from a place on, and the pages after it.
    pub(crate) pages: &'a [Page<V>],
    pub(crate) place: usize,
}

impl<'a, V: Stored> Model for KeyWalk<'a, V> {
    ghost use Rattle.std.specs.Prelude.{List};
    ghost use Rattle.std.specs.List.{AllByRecursion};
    ghost use Rattle.maps.specs.Marks.{IsPage, left_in, seen_pages};
    ghost use Rattle.maps.specs.Paged.{Entry};

    ghost Value = { List (Entry V) };

    ghost view = { λ w. left_in w.place (seen_pages V.said w.words.now w.pages.now) };

    ghost invariant = { λ w. AllByRecursion (IsPage V.said V.MOST w.words.now) w.pages.now };
}

impl<'a, V: Stored> KeyWalk<'a, V> {
    ghost use Rattle.std.specs.Prelude.{◌≡◌, []};

    /// No entries.
    pub fn none() -> Self
        ensures { result ≡ [] }
    {
        KeyWalk {
            words: &[],
            pages: &[],
            place: 0,
        }
    }
}

impl<'a, V: Stored> Iterator for KeyWalk<'a, V> {
    type Item = (Key, V);

    ghost use Rattle.std.specs.Iterator.{YieldsFirst, item_count};

    ghost next_gives = { YieldsFirst (λ w. w) };

    ghost remaining = { item_count (λ w. w) };

    fn next(&mut self) -> Option<(Key, V)> {
        loop {
            let (page, others) = self.pages.split_first()?;
            if self.place < page.len() {
                let entry = page.entry(self.place, self.words);
                self.place += 1;
                return Some(entry);
            }
            self.pages = others;
            self.place = 0;
        }
    }
}
