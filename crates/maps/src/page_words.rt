//! The word of a page: a 1 for each of its entries that is not marked.
ghost use Rattle.std.specs.Prelude.{◌≡◌, ◌≢◌, ◌-◌, ◌^◌, ◌<◌, ◌≤◌, ℕ, true, false};
ghost use Rattle.maps.specs.declared.page.TheConstants.{PAGE};
ghost use Rattle.maps.specs.Marked.{is_marked as is_marked_in};

use crate::page::PAGE;

/// The word of a page of `count` entries, none of which is marked.
pub(crate) fn without_marks(count: usize) -> u64
    requires { count ≤ PAGE }
    ensures { result ≡ 2 ^ count - 1 }
{
    if count == 0 {
        return 0;
    }
    u64::MAX >> (PAGE - count)
}

/// Whether the entry at a place is marked.
pub(crate) fn is_marked(word: u64, place: usize) -> bool
    requires { place < PAGE }
    ensures { result ≡ is_marked_in word place }
{
    word & (1 << place) == 0
}

/// The word after the entry at a place was marked.
pub(crate) fn with_mark(word: u64, place: usize) -> u64
    requires { place < PAGE }
    ensures marked { is_marked_in result place ≡ true }
    ensures others { (other : ℕ) → other < PAGE → other ≢ place → is_marked_in result other ≡ is_marked_in word other }
    ensures less { result ≤ word }
{
    word & !(1 << place)
}

/// The first place of an entry that is not marked.
pub(crate) fn first_unmarked(word: u64) -> usize
    requires { 0 < word }
    ensures { is_marked_in word result ≡ false }
{
    word.trailing_zeros() as usize
}
