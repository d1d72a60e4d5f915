use crate::mark::Mark;
use crate::{Brief, Steps, Stored};
use std::alloc::{AllocError, Global};
use std::cmp::Ordering;
use std::marker::{Model, PhantomData};
use terms::Key;

/// The greatest number of entries of a page.
pub(crate) const PAGE: usize = 64;

/// Half of it: when a page is divided, each part has this many.
pub(crate) const HALF: usize = 32;

/// Some entries of a map, in the order of their keys. There is room for `PAGE` from the beginning. Their words stand with those of the other
/// pages of the map.
#[derive(Drop)]
pub(crate) struct Page<V> {
    // The first key, or the empty one if there is none: here, so that a search among pages reads one line of memory of each.
    first: Key,
    marks: Vec<Mark>,
    values: PhantomData<V>,
}

impl<V> Model for Page<V> {
    ghost use Rattle.std.specs.Prelude.{◌≤◌, length};
    ghost use Rattle.std.specs.Vec.{vec_capacity};
    ghost use Rattle.maps.specs.declared.page.TheConstants.{PAGE};
    ghost use Rattle.maps.specs.Marks.{Marks};
    ghost use Rattle.maps.specs.Codes.{page_code};

    ghost Value = { Marks };

    ghost coded = { page_code };

    ghost view = { λ p. (p.first, p.marks.items) };

    ghost invariant = { λ p. (length p.marks.items ≤ PAGE) × (PAGE ≤ vec_capacity p.marks) };
}

impl<V: Stored> Page<V> {
    ghost use Rattle.std.specs.Prelude.{◌≡◌, ◌+◌, ◌^◌, ◌<◌, ◌≤◌, ◌↔◌, ◌++◌, ℕ, [], T, IfErr, IfOk, IsTrue, length, get_or, set};
    ghost use Rattle.std.specs.List.{insert as add};
    ghost use Rattle.std.specs.Ordering.{is_lt};
    ghost use Rattle.std.specs.FinMap.{is_sorted};
    ghost use Rattle.terms.specs.Key.{key_cmp};
    ghost use Rattle.maps.specs.Keyed.{IsAt, IsGapFor};
    ghost use Rattle.maps.specs.Marks.{IsPage, IsWithin, entries_in, entry_of, first_after, key_of, with_brief};
    ghost use Rattle.maps.specs.Paged.{AreLess};

    /// A page without entries.
    pub fn new(alloc: Global) -> Result<Self, AllocError>
        ensures { IfOk result (λ page. page ≡ ([], [])) }
    {
        let values = PhantomData;
        Ok(Page {
            first: Key::new(&[]),
            marks: Vec::with_capacity(alloc, PAGE)?,
            values,
        })
    }

    /// The number of entries.
    pub fn len(&self) -> usize
        ensures count { result ≡ length self.now.1 }
        ensures most { result ≤ PAGE }
    {
        self.marks.len()
    }

    /// The entry at a place.
    pub fn entry(&self, place: usize, words: &[i64]) -> (Key, V)
        requires page { IsPage V.said V.MOST words.now self.now }
        requires place { place < length self.now.1 }
        ensures { (other : _) → result ≡ get_or (entries_in V.said words.now self.now) place other }
    {
        let mark = self.marks[place];
        (mark.key::<V>(words), mark.value::<V>(words))
    }

    /// The value at a place.
    pub fn value(&self, place: usize, words: &[i64]) -> V
        requires page { IsPage V.said V.MOST words.now self.now }
        requires place { place < length self.now.1 }
        ensures { (other : _) → result ≡ (get_or (entries_in V.said words.now self.now) place other).1 }
    {
        self.marks[place].value::<V>(words)
    }

    /// Whether the first key is greater than this one.
    pub fn begins_after(&self, key: &Key, steps: &mut Steps) -> bool
        ensures tells { result ≡ is_lt (key_cmp key.now self.now.0) }
        ensures cost { steps.new ≤ steps.old + 1 }
        ensures more { steps.old ≤ steps.new }
    {
        matches!(steps.compare(key, &self.first), Ordering::Less)
    }

    /// Whether all keys are less than this one.
    pub fn ends_before(&self, key: Key, words: &[i64]) -> bool
        requires page { IsPage V.said V.MOST words.now self.now }
        requires sorted { T (is_sorted key_cmp (entries_in V.said words.now self.now)) }
        ensures { IsTrue result ↔ AreLess (entries_in V.said words.now self.now) key }
    {
        match self.marks.last() {
            Some(last) => last.key::<V>(words) < key,
            None => true,
        }
    }

    /// Where the key is, or where it would go: by one comparison for each binary digit of the number of entries, at most.
    pub fn search(&self, key: &Key, words: &[i64], steps: &mut Steps) -> Result<usize, usize>
        requires page { IsPage V.said V.MOST words.now self.now }
        requires sorted { T (is_sorted key_cmp (entries_in V.said words.now self.now)) }
        ensures found { IfOk result (IsAt (entries_in V.said words.now self.now) key.now) }
        ensures absent { IfErr result (IsGapFor (entries_in V.said words.now self.now) key.now) }
        ensures cost { (digits : ℕ) → length self.now.1 < 2 ^ digits → steps.new ≤ steps.old + digits }
        ensures more { steps.old ≤ steps.new }
    {
        let mut low = 0;
        let mut high = self.marks.len();
        while low < high {
            let middle = low + (high - low) / 2;
            match steps.compare(&self.key(middle, words), key) {
                Ordering::Less => low = middle + 1,
                Ordering::Equal => return Ok(middle),
                Ordering::Greater => high = middle,
            }
        }
        Err(low)
    }

    /// Whether the key is at this place. It takes one comparison at most.
    pub fn has_at(&self, place: usize, key: &Key, words: &[i64], steps: &mut Steps) -> bool
        requires page { IsPage V.said V.MOST words.now self.now }
        requires sorted { T (is_sorted key_cmp (entries_in V.said words.now self.now)) }
        ensures { IsTrue result → IsAt (entries_in V.said words.now self.now) key.now place }
    {
        if place >= self.marks.len() {
            return false;
        }
        match steps.compare(&self.key(place, words), key) {
            Ordering::Less => false,
            Ordering::Equal => true,
            Ordering::Greater => false,
        }
    }

    /// The key at a place.
    pub fn key(&self, place: usize, words: &[i64]) -> Key
        requires page { IsPage V.said V.MOST words.now self.now }
        requires place { place < length self.now.1 }
        ensures { (other : _) → result ≡ (get_or (entries_in V.said words.now self.now) place other).0 }
    {
        self.marks[place].key::<V>(words)
    }

    /// Puts other small numbers in the place of those of an entry.
    pub fn set(&mut self, place: usize, brief: Brief)
        requires { place < length self.old.1 }
        ensures { (other : _) → self.new ≡ (self.old.0, set self.old.1 place (with_brief (get_or self.old.1 place other) brief)) }
    {
        let mark = self.marks[place];
        self.marks[place] = Mark { brief, ..mark };
    }

    /// Adds an entry at a place.
    pub fn insert(&mut self, place: usize, key: Key, mark: Mark)
        requires within { place ≤ length self.old.1 }
        requires room { length self.old.1 < PAGE }
        ensures { self.new ≡ (first_after place key self.old.0, add self.old.1 place mark) }
    {
        if place == 0 {
            self.first = key;
        }
        let _added = self.marks.insert(place, mark);
    }

    /// Adds an entry at a place of a full page, and moves the greater half to a page that has none.
    pub fn divide(&mut self, place: usize, key: Key, mark: Mark, words: &[i64], upper: &mut Page<V>)
        requires page { IsPage V.said V.MOST words.now self.old }
        requires mark { IsWithin V.MOST words.now mark × (key_of words.now mark ≡ key) }
        requires within { place ≤ length self.old.1 }
        requires full { length self.old.1 ≡ PAGE }
        requires empty { upper.old.1 ≡ [] }
        ensures all { self.new.1 ++ upper.new.1 ≡ add self.old.1 place mark }
        ensures lower { IsPage V.said V.MOST words.now self.new × (HALF ≤ length self.new.1) }
        ensures upper { IsPage V.said V.MOST words.now upper.new × (HALF ≤ length upper.new.1) }
    {
        self.split(words, upper);
        if place <= HALF {
            self.insert(place, key, mark);
        } else {
            upper.insert(place - HALF, key, mark);
        }
    }

    // Moves the greater half of a full page to a page that has no entries.
    fn split(&mut self, words: &[i64], upper: &mut Page<V>)
        requires page { IsPage V.said V.MOST words.now self.old }
        requires full { length self.old.1 ≡ PAGE }
        requires empty { upper.old.1 ≡ [] }
        ensures all { self.new.1 ++ upper.new.1 ≡ self.old.1 }
        ensures lower { IsPage V.said V.MOST words.now self.new × (length self.new.1 ≡ HALF) }
        ensures upper { IsPage V.said V.MOST words.now upper.new × (length upper.new.1 ≡ HALF) }
    {
        upper.first = self.key(HALF, words);
        let _copied = upper.marks.extend_from_slice(&self.marks[HALF..]);
        self.marks.truncate(HALF);
    }
}
