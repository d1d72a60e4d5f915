use maps::Hint;

/// Roughly where the last item, tag and finished instance of a store were looked up. The next ones are looked up there first: instances are tried in the order in which
/// the store holds them, and put about in that order what it holds.
#[derive(Drop)]
pub(crate) struct Hints {
    // The items that bodies read, and those that they put.
    pub(crate) reads: Hint,
    pub(crate) items: Hint,
    // The tags that prescribe instances, and those that they put.
    pub(crate) prescribers: Hint,
    pub(crate) tags: Hint,
    pub(crate) done: Hint,
}

impl Hints {
    /// Nothing was looked up yet.
    pub(crate) fn new() -> Self {
        Hints {
            reads: Hint::new(),
            items: Hint::new(),
            prescribers: Hint::new(),
            tags: Hint::new(),
            done: Hint::new(),
        }
    }
}
