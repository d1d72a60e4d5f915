use maps::Hint;

/// Roughly where the last tag and the last done instance were looked up. The next ones are looked up there first.
#[derive(Clone, Copy, Debug)]
pub struct Hints {
    pub(crate) tags: Hint,
    pub(crate) done: Hint,
}

impl Hints {
    /// Nothing was looked up yet.
    pub fn new() -> Self {
        Hints {
            tags: Hint::new(),
            done: Hint::new(),
        }
    }
}
