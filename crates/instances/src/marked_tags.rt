use maps::{Hint, MarkedCollections};
use std::marker::Model;
use terms::{Tag, TagCollection};

/// The tags of a store that is lent, each with whether the environment put it and whether it is marked.
#[derive(Drop)]
pub struct MarkedTags<'a> {
    pub(crate) marks: MarkedCollections<'a, bool>,
}

impl<'a> Model for MarkedTags<'a> {
    ghost use Rattle.std.specs.Prelude.{Bool};
    ghost use Rattle.std.specs.Coded.{coded_bool};
    ghost use Rattle.maps.specs.Codes.{marked_places_code};
    ghost use Rattle.maps.specs.Marked.{MarkedPlaces};

    ghost Value = { MarkedPlaces Bool };

    ghost coded = { marked_places_code coded_bool };

    ghost view = { λ m. m.marks };
}

impl<'a> MarkedTags<'a> {
    ghost use Rattle.std.specs.Prelude.{◌≡◌, None, IfSome};
    ghost use Rattle.std.specs.FinMap.{get};
    ghost use Rattle.maps.specs.Marked.{AreAllMarked, IsLeft, with_mark};
    ghost use Rattle.instances.specs.Known.{tag_place};

    /// Whether the environment put the tag, if it is there, and whether it is marked. It looks first where the hint says, and sets the hint to
    /// where the tag is or would be. So does the next one.
    pub fn get(&self, tag: Tag, hint: &mut Hint) -> Option<(bool, bool)>
        ensures { result ≡ get self.now (tag_place tag) }
    {
        self.marks.get(tag.collection.0, tag.key, hint)
    }

    /// Marks the tag, if it is there, and returns what `get` returned before. It takes no memory.
    pub fn mark(&mut self, tag: Tag, hint: &mut Hint) -> Option<(bool, bool)>
        ensures before { result ≡ get self.old (tag_place tag) }
        ensures after { self.new ≡ with_mark self.old (tag_place tag) }
    {
        self.marks.mark(tag.collection.0, tag.key, hint)
    }

    /// The first tag that is not marked.
    pub fn first_unmarked(&self) -> Option<Tag>
        ensures some { IfSome result (λ tag. IsLeft self.now (tag_place tag)) }
        ensures none { result ≡ None → AreAllMarked self.now }
    {
        match self.marks.first_unmarked() {
            Some((number, key)) => {
                let collection = TagCollection(number);
                Some(Tag { collection, key })
            }
            None => None,
        }
    }
}
