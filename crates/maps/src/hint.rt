/// Roughly where a key was looked up last. The next look-up looks there first, so keys that come roughly in order take few comparisons. It
/// changes no result.
#[derive(Clone, Copy, Debug)]
pub struct Hint {
    // The page and the place in it where the next key is expected.
    pub(crate) page: usize,
    pub(crate) place: usize,
}

impl Hint {
    /// Points at the first entries of a map.
    pub fn new() -> Self {
        Hint { page: 0, place: 0 }
    }

    // Points at the entry after this one.
    pub(crate) fn after(page: usize, place: usize) -> Self {
        Hint {
            page,
            place: place.saturating_add(1),
        }
    }
}
