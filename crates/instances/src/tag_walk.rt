use std::marker::Model;
use terms::{Tag, TagCollection};

/// The tags that are left of a walk, in order, each with a mark whether the environment put it.
#[derive(Drop)]
pub struct TagWalk<'a> {
    pub(crate) entries: maps::Walk<'a, bool>,
}

impl<'a> Model for TagWalk<'a> {
    ghost use Rattle.std.specs.Prelude.{Bool, List, map};
    ghost use Rattle.terms.specs.declared.name.Tag.{Tag as Name};
    ghost use Rattle.instances.specs.Known.{tag_at};

    ghost Value = { List (Name × Bool) };

    ghost view = { λ w. map (λ entry. (tag_at entry.0, entry.1)) w.entries };
}

impl<'a> Iterator for TagWalk<'a> {
    type Item = (Tag, bool);

    ghost use Rattle.std.specs.Iterator.{YieldsFirst, item_count};

    ghost next_gives = { YieldsFirst (λ w. w) };

    ghost remaining = { item_count (λ w. w) };

    fn next(&mut self) -> Option<(Tag, bool)> {
        let ((number, key), by_environment) = self.entries.next()?;
        let collection = TagCollection(number);
        Some((Tag { collection, key }, by_environment))
    }
}
