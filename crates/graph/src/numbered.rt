ghost use Rattle.std.specs.Prelude.{◌≡◌, ◌<◌, ◌++◌, ◌∷◌, [], length, None, Some, IfSome, OnOk, slice_get};
ghost use Rattle.std.specs.Option.{option_map};
ghost use Rattle.steptree.specs.Names.{place_of};
ghost use Rattle.graph.specs.Numbered.{names_numbered, found};

use indexmap::IndexMap;
use std::alloc::{AllocError, Global};
use std::marker::Model;

/// Names in the order of their numbers, no name twice, each with a value.
pub(crate) struct Numbered<V> {
    entries: IndexMap<String, V>,
}

impl<V: Drop> Drop for Numbered<V> {
    // Written by hand, so that it is one call wherever names are dropped.
    fn drop(self) {
        let Numbered { entries: _ } = self;
    }
}

impl<V> Model for Numbered<V> {
    ghost use Rattle.std.specs.Prelude.{List, ℕ, map};
    ghost use Rattle.std.specs.Coded.{coded_list, coded_ℕ, coded×};

    ghost Value = { List (List ℕ × V) };

    ghost coded = { coded_list (coded× (coded_list coded_ℕ) V.code) };

    ghost view = { λ numbered. map (λ entry. (entry.0.bytes.items, entry.1)) numbered.entries.entries };
}

impl<V> Numbered<V> {
    /// No names.
    pub(crate) fn new(alloc: Global) -> Self
        ensures { result ≡ [] }
    {
        Numbered {
            entries: IndexMap::new(alloc),
        }
    }

    /// How many there are.
    pub(crate) fn len(&self) -> usize
        ensures { result ≡ length self.now }
    {
        self.entries.len()
    }

    /// The number of a name.
    pub(crate) fn number(&self, name: &str) -> Option<usize>
        ensures number { result ≡ place_of (names_numbered self.now) name.now }
        ensures within { IfSome result (λ number. number < length self.now) }
    {
        self.entries.get_index_of(name)
    }

    /// The value with a name.
    pub(crate) fn get(&self, name: &str) -> Option<&V>
        ensures { option_map (λ value. value.now) result ≡ found self.now name.now }
    {
        self.entries.get(name)
    }

    /// The name with a number.
    pub(crate) fn name(&self, number: usize) -> Option<&str>
        ensures name { option_map (λ name. name.now) result ≡ slice_get (names_numbered self.now) number }
        ensures once { IfSome result (λ name. place_of (names_numbered self.now) name.now ≡ Some number) }
    {
        match self.entries.as_slice().get_index(number) {
            Some((name, _)) => Some(name.as_str()),
            None => None,
        }
    }

    /// The value with a number.
    pub(crate) fn value(&self, number: usize) -> Option<&V>
        ensures { option_map (λ value. value.now) result ≡ option_map (λ entry. entry.1) (slice_get self.now number) }
    {
        match self.entries.get_index(number) {
            Some((_, value)) => Some(value),
            None => None,
        }
    }
}

impl<V: Drop> Numbered<V> {
    /// Adds a name that is not yet there, under the next number.
    pub(crate) fn push(&mut self, name: &str, value: V) -> Result<(), AllocError>
        requires { place_of (names_numbered self.old) name.now ≡ None }
        ensures { OnOk result (self.new ≡ self.old ++ (name.now, value) ∷ []) }
    {
        let alloc = *self.entries.allocator();
        let name = String::from_str(alloc, name)?;
        self.entries.insert(name, value)?;
        Ok(())
    }
}
