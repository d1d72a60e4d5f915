use crate::page_words::{first_unmarked, is_marked, with_mark, without_marks};
use crate::pages::{Found, Pages};
use crate::{Hint, Stored};
use std::alloc::{AllocError, Global};
use std::marker::Model;
use terms::Key;

/// The entries of a map that is lent, each with whether it is marked. As long as these marks live the map does not change, so a word of 64 bits
/// beside each of its pages is enough.
#[derive(Drop)]
pub struct MarkedMap<'a, V: Stored> {
    pages: &'a Pages<V>,
    // For each page, which of its entries are not marked.
    words: Vec<u64>,
}

impl<'a, V: Stored> Model for MarkedMap<'a, V> {
    ghost use Rattle.maps.specs.Codes.{marked_code};
    ghost use Rattle.maps.specs.Marked.{AreMarks, Marked, marked_map};

    ghost Value = { Marked V };

    ghost coded = { marked_code V.code };

    ghost view = { λ m. marked_map m.pages.now.pages m.words.items };

    ghost invariant = { λ m. AreMarks m.pages.now.pages m.words.items };
}

impl<'a, V: Stored> MarkedMap<'a, V> {
    ghost use Rattle.std.specs.Prelude.{◌≡◌, None, IfOk, IfSome};
    ghost use Rattle.std.specs.FinMap.{from_entries, get};
    ghost use Rattle.maps.specs.Marked.{AreAllMarked, AreUnmarked, IsLeft, with_mark as marked_with};
    ghost use Rattle.maps.specs.Paged.{all_of};

    /// The entries of these pages, none of them marked.
    pub(crate) fn new(alloc: Global, pages: &'a Pages<V>) -> Result<Self, AllocError>
        ensures { IfOk result (AreUnmarked (from_entries (all_of pages.now.pages))) }
    {
        let count = pages.page_count();
        let mut words = Vec::with_capacity(alloc, count)?;
        for page in 0..count {
            words.push_reserved(without_marks(pages.page_len(page)));
        }
        Ok(MarkedMap { pages, words })
    }

    /// The value of the key, if it has one, and whether it is marked. It looks first where the hint says, and sets the hint to where the key is
    /// or would be. So does the next one.
    pub fn get(&self, key: Key, hint: &mut Hint) -> Option<(V, bool)>
        ensures { result ≡ get self.now key }
    {
        match self.pages.find_near(&key, hint) {
            Found::At(page, place) => {
                let value = self.pages.value_at(page, place);
                Some((value, is_marked(self.words[page], place)))
            }
            Found::Gap(_, _) => None,
            Found::Behind => None,
        }
    }

    /// Marks the entry with the key, if there is one, and returns what `get` returned before. It takes no memory.
    pub fn mark(&mut self, key: Key, hint: &mut Hint) -> Option<(V, bool)>
        ensures before { result ≡ get self.old key }
        ensures after { self.new ≡ marked_with self.old key }
    {
        match self.pages.find_near(&key, hint) {
            Found::At(page, place) => {
                let value = self.pages.value_at(page, place);
                let word = self.words[page];
                self.words[page] = with_mark(word, place);
                Some((value, is_marked(word, place)))
            }
            Found::Gap(_, _) => None,
            Found::Behind => None,
        }
    }

    /// The key of the first entry that is not marked. It looks at one word for each page.
    pub fn first_unmarked(&self) -> Option<Key>
        ensures some { IfSome result (IsLeft self.now) }
        ensures none { result ≡ None → AreAllMarked self.now }
    {
        for page in 0..self.words.len() {
            let word = self.words[page];
            if word != 0 {
                return Some(self.pages.key_at(page, first_unmarked(word)));
            }
        }
        None
    }
}
