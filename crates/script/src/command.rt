use terms::{Addr, Tag};

/// What a line of a script asks for.
#[derive(Clone, Copy, Debug, PartialEq, Eq)]
pub enum Command {
    /// The environment puts an item.
    Put(Addr, i64),
    /// The environment puts a tag.
    Tag(Tag),
    /// The environment gets the item at an address.
    Get(Addr),
    /// The steps are run.
    Run,
}
