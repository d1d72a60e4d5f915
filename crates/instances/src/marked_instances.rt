ghost use Rattle.std.specs.Prelude.{◌≡◌};
ghost use Rattle.instances.specs.Known.{instance_at};
ghost use Rattle.instances.specs.MarkedDone.{mark_if_over as mark_of};

use crate::standing::Standing;
use maps::{Hint, MarkedCollections};
use std::marker::Model;
use terms::{Inst, Key, StepCollection};

/// The instances of a store that is lent, each of those that are done with whether it is marked.
#[derive(Drop)]
pub struct MarkedInstances<'a> {
    pub(crate) marks: MarkedCollections<'a, Standing>,
}

impl<'a> Model for MarkedInstances<'a> {
    ghost use Rattle.maps.specs.Codes.{marked_places_code};
    ghost use Rattle.maps.specs.Marked.{MarkedPlaces};
    ghost use Rattle.instances.specs.declared.standing.Standing.{Standing as Stands};
    ghost use Rattle.instances.specs.Marks.{standing_code};
    ghost use Rattle.instances.specs.MarkedDone.{LeftAreDone};

    ghost Value = { MarkedPlaces Stands };

    ghost coded = { marked_places_code standing_code };

    ghost view = { λ m. m.marks };

    ghost invariant = { λ m. LeftAreDone m.marks };
}

impl<'a> MarkedInstances<'a> {
    ghost use Rattle.std.specs.Prelude.{Some, None, IfSome, false};
    ghost use Rattle.maps.specs.Marked.{with_mark};
    ghost use Rattle.instances.specs.Known.{inst_place};
    ghost use Rattle.instances.specs.MarkedDone.{AreDoneMarked, done_mark};

    /// Whether the instance is marked; `None` if it is not done. It looks first where the hint says, and sets the hint to where the instance is
    /// or would be. So does the next one.
    pub fn get(&self, inst: Inst, hint: &mut Hint) -> Option<bool>
        ensures { result ≡ done_mark self.now inst }
    {
        match self.marks.get(inst.collection.0, inst.key, hint) {
            Some((standing, marked)) => mark_if_over(standing, marked),
            None => None,
        }
    }

    /// Marks the instance, if it is done, and returns what `get` returned before. It takes no memory.
    pub fn mark(&mut self, inst: Inst, hint: &mut Hint) -> Option<bool>
        ensures before { result ≡ done_mark self.old inst }
        ensures after { self.new ≡ with_mark self.old (inst_place inst) }
    {
        match self.marks.mark(inst.collection.0, inst.key, hint) {
            Some((standing, marked)) => mark_if_over(standing, marked),
            None => None,
        }
    }

    /// The first instance that is done and not marked, by step and then by key.
    pub fn first_unmarked(&self) -> Option<Inst>
        ensures some { IfSome result (λ instance. done_mark self.now instance ≡ Some false) }
        ensures none { result ≡ None → AreDoneMarked self.now }
    {
        match self.marks.first_unmarked() {
            Some(place) => Some(inst_at(place)),
            None => None,
        }
    }
}

// The mark of an instance that stands so, if it is done.
fn mark_if_over(standing: Standing, marked: bool) -> Option<bool>
    ensures { result ≡ mark_of standing marked }
{
    match standing {
        Standing::Done => Some(marked),
        _ => None,
    }
}

// The instance of a step, by the step's number and its key.
fn inst_at(place: (u16, Key)) -> Inst
    ensures { result ≡ instance_at place.0 place.1 }
{
    let (number, key) = place;
    let collection = StepCollection(number);
    Inst { collection, key }
}
