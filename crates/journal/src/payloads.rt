ghost use Rattle.std.specs.Prelude.{◌≡◌, ◌<◌, ◌↔◌, Some, [], length, IsTrue, slice_get};

use std::marker::Model;

// Where a payload is among the bytes.
#[derive(Clone, Copy)]
pub(crate) struct Place {
    pub(crate) start: usize,
    pub(crate) end: usize,
}

/// The payloads of a journal in order, as a list of byte strings.
#[derive(Drop)]
pub struct Payloads {
    bytes: Vec<u8>,
    places: Vec<Place>,
}

impl Model for Payloads {
    ghost use Rattle.std.specs.Prelude.{List, ℕ};

    ghost Value = { List (List ℕ) };

    ghost use Rattle.journal.specs.Places.{payloads_at, AreWithin};

    ghost view = { λ p. payloads_at p.bytes.items p.places.items };

    ghost invariant = { λ p. AreWithin p.bytes.items p.places.items };
}

impl Payloads {
    ghost use Rattle.journal.specs.Places.{payloads_at, AreWithin};

    /// The payloads at these places among the bytes.
    pub(crate) fn at(bytes: Vec<u8>, places: Vec<Place>) -> Self
        requires { AreWithin bytes.items places.items }
        ensures { result ≡ payloads_at bytes.items places.items }
    {
        Payloads { bytes, places }
    }

    /// The number of payloads.
    pub fn len(&self) -> usize
        ensures { result ≡ length self.now }
    {
        self.places.len()
    }

    /// Whether there is no payload.
    pub fn is_empty(&self) -> bool
        ensures { IsTrue result ↔ (self.now ≡ []) }
    {
        self.places.is_empty()
    }

    /// The payload at an index, from 0 in the order of the file.
    pub fn get(&self, index: usize) -> &[u8]
        requires { index < length self.now }
        ensures { slice_get self.now index ≡ Some result.now }
    {
        let place = self.places[index];
        &self.bytes[place.start..place.end]
    }
}
