use crate::Stored;
use crate::pages::Pages;
use terms::Key;

/// What is at a place of a page, for whoever keeps something beside the entries.
impl<V: Stored> Pages<V> {
    ghost use Rattle.std.specs.Prelude.{◌≡◌, ◌<◌, ◌≤◌, T, length, get_or};
    ghost use Rattle.std.specs.FinMap.{is_sorted};
    ghost use Rattle.terms.specs.Key.{key_cmp};
    ghost use Rattle.maps.specs.declared.page.TheConstants.{PAGE};
    ghost use Rattle.maps.specs.Paged.{all_of, page_at};

    /// The number of pages.
    pub fn page_count(&self) -> usize
        ensures count { result ≡ length self.now.pages }
        ensures sorted { T (is_sorted key_cmp (all_of self.now.pages)) }
    {
        self.pages.len()
    }

    /// The number of entries of a page.
    pub fn page_len(&self, page: usize) -> usize
        requires { page < length self.now.pages }
        ensures count { result ≡ length (page_at self.now.pages page) }
        ensures most { result ≤ PAGE }
    {
        self.pages[page].len()
    }

    /// The key at a place of a page.
    pub fn key_at(&self, page: usize, place: usize) -> Key
        requires page { page < length self.now.pages }
        requires place { place < length (page_at self.now.pages page) }
        ensures { (other : _) → result ≡ (get_or (page_at self.now.pages page) place other).0 }
    {
        self.pages[page].key(place, &self.words)
    }
}
