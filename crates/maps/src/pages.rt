ghost use Rattle.std.specs.Prelude.{◌≡◌, ◌⊎◌, ◌+◌, ◌*◌, ◌^◌, ◌<◌, ◌≤◌, [], IfOk, OnOk, length};
ghost use Rattle.std.specs.List.{AllByRecursion};
ghost use Rattle.std.specs.List.{insert as add};
ghost use Rattle.std.specs.Vec.{vec_capacity};
ghost use Rattle.maps.specs.PagesKept.{IsEnough};

use crate::mark::spell;
use crate::page::{HALF, PAGE, Page};
use crate::{Hint, KeyWalk, Steps, Stored};
use std::alloc::{AllocError, Global};
use std::marker::Model;
use terms::{Key, MAX_COMPONENTS};

/// Where a key is among pages.
#[derive(Clone, Copy)]
pub(crate) enum Found {
    /// In this page, at this place.
    At(usize, usize),
    /// Nowhere; it would go into this page, to this place.
    Gap(usize, usize),
    /// Nowhere; it would go after all entries, into a page of its own.
    Behind,
}

/// The entries of a map, in the order of their keys, in pages of at most `PAGE`. Each page but the last is at least half
/// full. So a search looks at few pages, and a new entry moves at most a page of entries; if it divides a page, it also moves
/// the places of the pages after it, 64 bytes each. The words of an entry stay where they were put.
#[derive(Drop)]
pub(crate) struct Pages<V: Stored> {
    pub(crate) pages: Vec<Page<V>>,
    // The words of all entries, in the order in which they came.
    pub(crate) words: Vec<i64>,
    // Empty pages, so that adding an entry allocates nothing.
    spare: Vec<Page<V>>,
    count: usize,
    room: usize,
    // Where the last change was: a search looks there first. Any place will do.
    near: Hint,
    alloc: Global,
}

impl<V: Stored> Model for Pages<V> {
    ghost use Rattle.std.specs.Vec.{vec_capacity};
    ghost use Rattle.maps.specs.Codes.{paged_code};
    ghost use Rattle.maps.specs.Paged.{Paged};
    ghost use Rattle.maps.specs.Marks.{AreHeld, seen_pages};
    ghost use Rattle.maps.specs.PagesKept.{AreKept};

    ghost Value = { Paged V };

    ghost coded = { paged_code V.code };

    ghost view = { λ s. record { pages = seen_pages V.said s.words.items s.pages.items; room = s.room } };

    ghost invariant = { λ s. AreKept (seen_pages V.said s.words.items s.pages.items) s.spare.items (vec_capacity s.pages) s.count s.room × AreHeld V.said V.MOST s.words.items (vec_capacity s.words) s.pages.items s.room };
}

impl<V: Stored> Pages<V> {
    ghost use Rattle.std.specs.Prelude.{◌≡◌, ◌+◌, ◌*◌, ◌^◌, ◌<◌, ◌≤◌, ℕ, ℤ, List, [], T, IsTrue, OnErr, OnOk, length, get_or};
    ghost use Rattle.std.specs.Ordering.{is_lt};
    ghost use Rattle.std.specs.FinMap.{find, is_sorted, put};
    ghost use Rattle.terms.specs.Key.{key_cmp};
    ghost use Rattle.maps.specs.declared.page.TheConstants.{PAGE};
    ghost use Rattle.maps.specs.Keyed.{ComparesFew};
    ghost use Rattle.maps.specs.Paged.{GoesBehind, AreLess, GoesInto, IsFound, IsInPage, IsPageFor, all_of, first_key, last_page, page_at};

    /// No entries, and no room.
    pub fn new(alloc: Global) -> Self
        ensures { result ≡ record { pages = []; room = 0 } }
    {
        Pages {
            pages: Vec::new(alloc),
            words: Vec::new(alloc),
            spare: Vec::new(alloc),
            count: 0,
            room: 0,
            near: Hint::new(),
            alloc,
        }
    }

    /// The number of entries.
    pub fn count(&self) -> usize
        ensures count { result ≡ length (all_of self.now.pages) }
        ensures sorted { T (is_sorted key_cmp (all_of self.now.pages)) }
    {
        self.count
    }

    /// The number of further entries that there is room for.
    pub fn room(&self) -> usize
        ensures { result ≡ self.now.room }
    {
        self.room
    }

    /// The entries, in the order of their keys.
    pub fn walk(&self) -> KeyWalk<'_, V>
        ensures walk { result ≡ all_of self.now.pages }
        ensures sorted { T (is_sorted key_cmp (all_of self.now.pages)) }
    {
        KeyWalk {
            words: &self.words,
            pages: &self.pages,
            place: 0,
        }
    }

    /// The value that a search found.
    pub fn value(&self, found: Found) -> Option<V>
        requires { (key : List ℤ) × IsFound self.now.pages key found }
        ensures { (key : List ℤ) → IsFound self.now.pages key found → result ≡ find key_cmp key (all_of self.now.pages) }
    {
        match found {
            Found::At(page, place) => Some(self.value_at(page, place)),
            Found::Gap(_, _) => None,
            Found::Behind => None,
        }
    }

    /// The value at a place of a page.
    pub fn value_at(&self, page: usize, place: usize) -> V
        requires page { page < length self.now.pages }
        requires place { place < length (page_at self.now.pages page) }
        ensures { (other : _) → result ≡ (get_or (page_at self.now.pages page) place other).1 }
    {
        self.pages[page].value(place, &self.words)
    }

    /// Where the key is, or where it would go. It counts its comparisons.
    pub fn find(&self, key: &Key, steps: &mut Steps) -> Found
        ensures found { IsFound self.now.pages key.now result }
        ensures cost { ComparesFew (length (all_of self.now.pages)) steps.old steps.new }
        ensures more { steps.old ≤ steps.new }
        ensures sorted { T (is_sorted key_cmp (all_of self.now.pages)) }
    {
        if self.pages.is_empty() {
            return Found::Behind;
        }
        let page = self.page_for(key, steps);
        self.search_page(page, key, steps)
    }

    /// The same. If the key is greater than all others, that takes one comparison; if it is the key of the last change or the next one in
    /// its page, five at most; if it is in that page or in the one after it, no search among the pages.
    pub fn search(&self, key: Key) -> Found
        ensures { IsFound self.now.pages key result }
    {
        let count = self.pages.len();
        if count == 0 {
            return Found::Behind;
        }
        if self.pages[count - 1].ends_before(key, &self.words) {
            return self.end();
        }
        let mut hint = self.near;
        self.find_near(&key, &mut hint)
    }

    /// The same. It looks first at the place that the hint gives and at the one before it, then in that page and in the one after it. It sets
    /// the hint to the place after the key, or where the key would be.
    pub fn find_near(&self, key: &Key, hint: &mut Hint) -> Found
        ensures { IsFound self.now.pages key.now result }
    {
        if self.pages.is_empty() {
            return Found::Behind;
        }
        let mut steps = Steps::new();
        let page = self.page_near(hint.page, key, &mut steps);
        let place = if page == hint.page { hint.place } else { 0 };
        let found = self.search_page_near(page, place, key, &mut steps);
        *hint = match found {
            Found::At(_, at) => Hint::after(page, at),
            Found::Gap(_, place) => Hint { page, place },
            Found::Behind => *hint,
        };
        found
    }

    // The page in which the key is, if it is in one. It looks at these two pages before it searches.
    fn page_near(&self, page: usize, key: &Key, steps: &mut Steps) -> usize
        requires { 0 < length self.now.pages }
        ensures { IsPageFor self.now.pages key.now result }
    {
        if self.is_page_for(page, key, steps) {
            return page;
        }
        let next = page.saturating_add(1);
        if self.is_page_for(next, key, steps) {
            return next;
        }
        self.page_for(key, steps)
    }

    // Whether there is this page, and the key is in it if it is in one.
    fn is_page_for(&self, page: usize, key: &Key, steps: &mut Steps) -> bool
        ensures { IsTrue result → IsPageFor self.now.pages key.now page }
    {
        let count = self.pages.len();
        if count <= page || (page > 0 && self.begins_after(page, key, steps)) {
            return false;
        }
        page + 1 == count || self.begins_after(page + 1, key, steps)
    }

    // Whether the first key of a page is greater than this one.
    fn begins_after(&self, page: usize, key: &Key, steps: &mut Steps) -> bool
        requires { page < length self.now.pages }
        ensures tells { result ≡ is_lt (key_cmp key.now (first_key (page_at self.now.pages page))) }
        ensures cost { steps.new ≤ steps.old + 1 }
        ensures more { steps.old ≤ steps.new }
    {
        self.pages[page].begins_after(key, steps)
    }

    // Where a key would go that is greater than all others.
    fn end(&self) -> Found
        requires { 0 < length self.now.pages }
        ensures { (key : List ℤ) → AreLess (last_page self.now.pages) key → IsFound self.now.pages key result }
    {
        let last = self.pages.len() - 1;
        let place = self.pages[last].len();
        if place < PAGE {
            return Found::Gap(last, place);
        }
        Found::Behind
    }

    // Where the key is in the page for it, or where it would go there. It looks at this place first, and then at the one before it.
    fn search_page_near(&self, page: usize, place: usize, key: &Key, steps: &mut Steps) -> Found
        requires { IsPageFor self.now.pages key.now page }
        ensures { IsFound self.now.pages key.now result }
    {
        if self.is_in_page(page, place, key, steps) {
            return Found::At(page, place);
        }
        let before = place.saturating_sub(1);
        if self.is_in_page(page, before, key, steps) {
            return Found::At(page, before);
        }
        self.search_page(page, key, steps)
    }

    // Whether the key is at this place of the page for it.
    fn is_in_page(&self, page: usize, place: usize, key: &Key, steps: &mut Steps) -> bool
        requires { IsPageFor self.now.pages key.now page }
        ensures { IsTrue result → IsInPage self.now.pages key.now page place }
    {
        self.pages[page].has_at(place, key, &self.words, steps)
    }

    // Where the key is in the page for it, or where it would go there.
    fn search_page(&self, page: usize, key: &Key, steps: &mut Steps) -> Found
        requires { IsPageFor self.now.pages key.now page }
        ensures found { IsFound self.now.pages key.now result }
        ensures cost { (digits : ℕ) → length (page_at self.now.pages page) < 2 ^ digits → steps.new ≤ steps.old + digits }
        ensures more { steps.old ≤ steps.new }
    {
        match self.pages[page].search(key, &self.words, steps) {
            Ok(place) => Found::At(page, place),
            Err(place) => Found::Gap(page, place),
        }
    }

    // The page in which the key is, if it is in one.
    fn page_for(&self, key: &Key, steps: &mut Steps) -> usize
        requires { 0 < length self.now.pages }
        ensures page { IsPageFor self.now.pages key.now result }
        ensures cost { (digits : ℕ) → length self.now.pages ≤ 2 ^ digits → steps.new ≤ steps.old + digits }
        ensures more { steps.old ≤ steps.new }
    {
        let mut low = 0;
        let mut high = self.pages.len();
        while high - low > 1 {
            let middle = low + (high - low) / 2;
            if self.begins_after(middle, key, steps) {
                high = middle;
            } else {
                low = middle;
            }
        }
        low
    }

    /// Gives a new value, which has no words, to a key that is in a page.
    pub fn set(&mut self, page: usize, place: usize, key: Key, value: V)
        requires there { IsInPage self.old.pages key page place }
        requires no_words { V.MOST ≡ 0 }
        ensures entries { all_of self.new.pages ≡ put key_cmp key value (all_of self.old.pages) }
        ensures room { self.new.room ≡ self.old.room }
    {
        value.write(&mut self.words);
        self.pages[page].set(place, value.brief());
        self.near = Hint::after(page, place);
    }

    /// Adds an entry into a page, at the place where its key goes.
    pub fn add(&mut self, page: usize, place: usize, key: Key, value: V)
        requires goes { GoesInto self.old.pages key page place }
        requires room { 0 < self.old.room }
        ensures entries { all_of self.new.pages ≡ put key_cmp key value (all_of self.old.pages) }
        ensures room { self.new.room + 1 ≡ self.old.room }
    {
        self.near = Hint::after(page, place);
        if self.pages[page].len() < PAGE {
            self.add_to_page(page, place, key, value);
        } else {
            self.add_to_full_page(page, place, key, value);
        }
    }

    // Adds an entry into a page that is not full.
    fn add_to_page(&mut self, page: usize, place: usize, key: Key, value: V)
        requires goes { GoesInto self.old.pages key page place }
        requires not_full { length (page_at self.old.pages page) < PAGE }
        requires room { 0 < self.old.room }
        ensures entries { all_of self.new.pages ≡ put key_cmp key value (all_of self.old.pages) }
        ensures room { self.new.room + 1 ≡ self.old.room }
    {
        let mark = spell(&mut self.words, &key, &value);
        self.pages[page].insert(place, key, mark);
        self.count += 1;
        self.room -= 1;
    }

    // Adds an entry into a page that is full, which is divided in two.
    fn add_to_full_page(&mut self, page: usize, place: usize, key: Key, value: V)
        requires goes { GoesInto self.old.pages key page place }
        requires full { length (page_at self.old.pages page) ≡ PAGE }
        requires room { 0 < self.old.room }
        ensures entries { all_of self.new.pages ≡ put key_cmp key value (all_of self.old.pages) }
        ensures room { self.new.room + 1 ≡ self.old.room }
    {
        if let Some(spare) = self.spare.pop() {
            let mut upper = spare;
            let mark = spell(&mut self.words, &key, &value);
            self.pages[page].divide(place, key, mark, &self.words, &mut upper);
            insert_page(&mut self.pages, page + 1, upper);
            self.count += 1;
            self.room -= 1;
        }
    }

    /// Adds an entry whose key goes after all others, in a page of its own.
    pub fn add_behind(&mut self, key: Key, value: V)
        requires goes { GoesBehind self.old.pages key }
        requires room { 0 < self.old.room }
        ensures entries { all_of self.new.pages ≡ put key_cmp key value (all_of self.old.pages) }
        ensures room { self.new.room + 1 ≡ self.old.room }
    {
        if let Some(spare) = self.spare.pop() {
            let mut page = spare;
            let mark = spell(&mut self.words, &key, &value);
            page.insert(0, key, mark);
            self.near = Hint::after(self.pages.len(), 0);
            self.pages.push_reserved(page);
            self.count += 1;
            self.room -= 1;
        }
    }

    /// Makes room for `count` more entries. It fails only if there was less room, and then changes nothing.
    pub fn make_room(&mut self, count: usize) -> Result<(), AllocError>
        ensures pages { self.new.pages ≡ self.old.pages }
        ensures ok { OnOk result (count ≤ self.new.room) }
        ensures not_less { self.old.room ≤ self.new.room }
        ensures enough { count ≤ self.old.room → self.new ≡ self.old }
        ensures refused { OnErr result ((self.new ≡ self.old) × (self.old.room < count)) }
    {
        if count <= self.room {
            return Ok(());
        }
        let enough = spare_pages(self.pages.len(), self.count, count)?;
        let most = most_words(self.words.len(), count, MAX_COMPONENTS + V::MOST)?;
        self.words.reserve(most)?;
        self.pages.reserve(enough)?;
        fill_spare(self.alloc, &mut self.spare, enough)?;
        self.room = count;
        Ok(())
    }
}

// Inserts a page, for which there is a place.
fn insert_page<V: Stored>(pages: &mut Vec<Page<V>>, at: usize, page: Page<V>)
    requires within { at ≤ length pages.old.items }
    requires place { length pages.old.items < vec_capacity pages.old }
    ensures pages { pages.new.items ≡ add pages.old.items at page }
    ensures places { vec_capacity pages.new ≡ vec_capacity pages.old }
{
    let _inserted = pages.insert(at, page);
}

// How many spare pages are enough for this room, beside `count` entries in `pages` pages.
fn spare_pages(pages: usize, count: usize, room: usize) -> Result<usize, AllocError>
    ensures enough { IfOk result (λ spare. IsEnough pages spare count room) }
    ensures most { OnOk result (count + room < 2 ^ 64) }
{
    let all = count.checked_add(room).ok_or(AllocError)?;
    let needed = (all / HALF + 2).saturating_sub(pages);
    Ok(needed.min(room))
}

// How many words `room` entries take at most, of `each` words; refused if the places of the words would not be numbers of 32 bits.
fn most_words(words: usize, room: usize, each: usize) -> Result<usize, AllocError>
    ensures { IfOk result (λ most. (most ≡ room * each) × (words + most < 2 ^ 32)) }
{
    let most = room.checked_mul(each).ok_or(AllocError)?;
    let all = words.checked_add(most).ok_or(AllocError)?;
    if all >= 1 << 32 {
        return Err(AllocError);
    }
    Ok(most)
}

// Makes empty pages until there are enough.
fn fill_spare<V: Stored>(
    alloc: Global,
    spare: &mut Vec<Page<V>>,
    enough: usize,
) -> Result<(), AllocError>
    requires { AllByRecursion (λ page. page ≡ ([], [])) spare.old.items }
    ensures empty { AllByRecursion (λ page. page ≡ ([], [])) spare.new.items }
    ensures more { length spare.old.items ≤ length spare.new.items }
    ensures few { (length spare.new.items ≤ enough) ⊎ (length spare.new.items ≡ length spare.old.items) }
    ensures ok { OnOk result (enough ≤ length spare.new.items) }
{
    for _page in spare.len()..enough {
        spare.push(Page::new(alloc)?)?;
    }
    Ok(())
}
