ghost use Rattle.std.specs.Prelude.{◌≡◌};
ghost use Rattle.std.specs.Option.{option_map};

use crate::Machine;
use instances::{MarkedInstances, MarkedTags};
use items::MarkedItems;
use maps::Hint;
use std::alloc::{AllocError, Global};
use std::marker::Model;
use terms::{Addr, Inst, Producer, Tag, facts_are_told_apart};

/// A store that is lent, with marks at its items, its tags and its instances that are done. It takes one bit for each of them. No call but
/// `Machine::marks` allocates memory.
#[derive(Drop)]
pub struct Marks<'a> {
    store: &'a Machine,
    items: MarkedItems<'a>,
    tags: MarkedTags<'a>,
    done: MarkedInstances<'a>,
}

impl<'a> Model for Marks<'a> {
    ghost use Rattle.std.specs.Coded.{codes, coded_bool};
    ghost use Rattle.maps.specs.Codes.{marked_places_code};
    ghost use Rattle.items.specs.Codes.{item_code};
    ghost use Rattle.instances.specs.Marks.{standing_code};
    ghost use Rattle.machine.specs.contracts.machine.Machine as of_machine;
    ghost use Rattle.machine.specs.Marked.{Marks as Seen, AreOfStore};

    ghost Value = { Seen };

    ghost coded = { Prim.hlevel (codes, of_machine.the_row.coded, marked_places_code item_code, marked_places_code coded_bool, marked_places_code standing_code) };

    ghost view = { λ m. record { store = m.store.now; items = m.items; tags = m.tags; done = m.done } };

    ghost invariant = { λ m. AreOfStore (record { store = m.store.now; items = m.items; tags = m.tags; done = m.done }) };
}

impl Machine {
    ghost use Rattle.std.specs.Prelude.{IfOk};
    ghost use Rattle.machine.specs.Marked.{IsUnmarked};

    /// This store, of which nothing is marked.
    pub fn marks(&self, alloc: Global) -> Result<Marks<'_>, AllocError>
        ensures { IfOk result (IsUnmarked self.now) }
    {
        let items = self.memory.items.marks(alloc)?;
        let tags = self.memory.instances.tag_marks(alloc)?;
        let done = self.memory.instances.done_marks(alloc)?;
        let store = self;
        Ok(Marks {
            store,
            items,
            tags,
            done,
        })
    }
}

impl<'a> Marks<'a> {
    ghost use Rattle.std.specs.Prelude.{None, IfSome};
    ghost use Rattle.terms.specs.Facts.{done, tag as name};
    ghost use Rattle.machine.specs.Marked.{
      AreDoneMarked,
      AreItemsMarked,
      AreTagsMarked,
      IsItemLeft,
      IsLeft,
      IsPartOfStore,
      MarksDone,
      MarksItem,
      MarksTag,
      done_in,
      item_in,
      tag_in,
    };

    /// The item at an address, who put it, and whether it is marked, if there is one. It looks first where the hint says, and sets the hint to
    /// where the address is or would be. So do the five calls after it.
    pub fn item(&self, addr: Addr, hint: &mut Hint) -> Option<(i64, Producer, bool)>
        ensures { result ≡ item_in self.now addr }
    {
        facts_are_told_apart();
        in_one(self.items.get(addr, hint))
    }

    /// Whether the environment put a tag, and whether it is marked, if it is there.
    pub fn tag(&self, tag: Tag, hint: &mut Hint) -> Option<(bool, bool)>
        ensures { result ≡ tag_in self.now tag }
    {
        self.tags.get(tag, hint)
    }

    /// Whether an instance is marked, if it is done.
    pub fn done(&self, inst: Inst, hint: &mut Hint) -> Option<bool>
        ensures { result ≡ done_in self.now inst }
    {
        self.done.get(inst, hint)
    }

    /// Marks the item at an address, if there is one, and returns what `item` returned before.
    pub fn mark_item(&mut self, addr: Addr, hint: &mut Hint) -> Option<(i64, Producer, bool)>
        ensures before { result ≡ item_in self.old addr }
        ensures after { MarksItem self.old self.new addr }
    {
        facts_are_told_apart();
        in_one(self.items.mark(addr, hint))
    }

    /// Marks a tag, if it is there, and returns what `tag` returned before.
    pub fn mark_tag(&mut self, tag: Tag, hint: &mut Hint) -> Option<(bool, bool)>
        ensures before { result ≡ tag_in self.old tag }
        ensures after { MarksTag self.old self.new tag }
    {
        facts_are_told_apart();
        self.tags.mark(tag, hint)
    }

    /// Marks an instance, if it is done, and returns what `done` returned before.
    pub fn mark_done(&mut self, inst: Inst, hint: &mut Hint) -> Option<bool>
        ensures before { result ≡ done_in self.old inst }
        ensures after { MarksDone self.old self.new inst }
    {
        facts_are_told_apart();
        self.done.mark(inst, hint)
    }

    /// The address of the first item that is not marked.
    pub fn first_item_left(&self) -> Option<Addr>
        ensures some { IfSome result (IsItemLeft self.now) }
        ensures none { result ≡ None → AreItemsMarked self.now }
    {
        self.items.first_unmarked()
    }

    /// The first tag that is not marked.
    pub fn first_tag_left(&self) -> Option<Tag>
        ensures some { IfSome result (λ tag. IsLeft self.now (name tag)) }
        ensures none { result ≡ None → AreTagsMarked self.now }
    {
        self.tags.first_unmarked()
    }

    /// The first instance that is done and not marked, by step and then by key.
    pub fn first_done_left(&self) -> Option<Inst>
        ensures some { IfSome result (λ instance. IsLeft self.now (done instance)) }
        ensures none { result ≡ None → AreDoneMarked self.now }
    {
        self.done.first_unmarked()
    }

    /// A law, with nothing to run: the store has all that is marked.
    pub fn is_part(&self)
        ensures { IsPartOfStore self.now }
    {
        let _store = &self.store;
    }
}

// An item, who put it, and whether it is marked, as one tuple.
fn in_one(entry: Option<((i64, Producer), bool)>) -> Option<(i64, Producer, bool)>
    ensures { result ≡ option_map (λ entry. (entry.0.0, entry.0.1, entry.1)) entry }
{
    match entry {
        Some(((value, producer), marked)) => Some((value, producer, marked)),
        None => None,
    }
}
