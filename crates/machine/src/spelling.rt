ghost use Rattle.std.specs.Prelude.{◌≡◌, ◌≤◌, length, take};
ghost use Rattle.codec.specs.declared.elements.TheConstants.{MOST_BYTES};
ghost use Rattle.machine.specs.Walks.{MeasuresNext, SpellsNext};

use codec::{instance_length, item_length, spell_instance, spell_item, spell_tag, tag_length};
use instances::{DoneWalk, TagWalk};
use items::Walk;
use std::marker::Model;

/// A walk that spells what it goes along, element by element.
pub(crate) trait Spelling {
    ghost use Rattle.std.specs.Prelude.{ℕ, List};

    /// The bytes of the elements that are left.
    ghost rest: { Self → List ℕ };

    /// The number of these elements.
    ghost count: { Self → ℕ };

    /// Whether each of them has a spelling.
    ghost InRange: { Self → Type 0 };

    /// Writes the bytes of the next element to the front of `out`, and returns how many; none if no element is left.
    fn spell_next(&mut self, out: &mut [u8]) -> usize
        requires { MOST_BYTES ≤ length out.old }
        ensures within { result ≤ MOST_BYTES }
        ensures room { length out.new ≡ length out.old }
        ensures next { SpellsNext rest self.old self.new (take result out.new) };

    /// Goes past the next element, and returns how many bytes it has; 0 if no element is left.
    fn measure_next(&mut self) -> usize
        ensures { MeasuresNext rest count InRange self.old self.new result };
}

/// The items that are left of a walk. The number of each put is one that a put may have.
#[derive(Drop)]
pub(crate) struct ItemsLeft<'a> {
    pub(crate) walk: Walk<'a>,
}

impl<'a> Model for ItemsLeft<'a> {
    ghost use Rattle.std.specs.Prelude.{List, map};
    ghost use Rattle.std.specs.List.{AllByRecursion};
    ghost use Rattle.codec.specs.Entries.{Item};
    ghost use Rattle.codec.specs.Spelling.{HasPutNumber};
    ghost use Rattle.holdings.specs.Listing.{as_listed};

    ghost Value = { List Item };

    ghost view = { λ l. map as_listed l.walk };

    ghost invariant = { λ l. AllByRecursion HasPutNumber (map as_listed l.walk) };
}

impl<'a> Spelling for ItemsLeft<'a> {
    ghost use Rattle.std.specs.Prelude.{length};
    ghost use Rattle.std.specs.List.{flat_map, AllByRecursion};
    ghost use Rattle.terms.specs.declared.key.TheConstants.{MAX_COMPONENTS};
    ghost use Rattle.codec.specs.Spelling.{item_bytes, IsItem};

    ghost rest = { flat_map item_bytes };

    ghost count = { length };

    ghost InRange = { AllByRecursion (IsItem MAX_COMPONENTS) };

    fn spell_next(&mut self, out: &mut [u8]) -> usize {
        match self.walk.next() {
            Some((addr, (value, producer))) => spell_item(out, &(addr, value, producer)),
            None => 0,
        }
    }

    fn measure_next(&mut self) -> usize {
        match self.walk.next() {
            Some((addr, (value, producer))) => item_length(&(addr, value, producer)),
            None => 0,
        }
    }
}

impl<'a> Spelling for TagWalk<'a> {
    ghost use Rattle.std.specs.Prelude.{length};
    ghost use Rattle.std.specs.List.{flat_map, AllByRecursion};
    ghost use Rattle.terms.specs.declared.key.TheConstants.{MAX_COMPONENTS};
    ghost use Rattle.codec.specs.Spelling.{marked_bytes, IsMarked};

    ghost rest = { flat_map marked_bytes };

    ghost count = { length };

    ghost InRange = { AllByRecursion (IsMarked MAX_COMPONENTS) };

    fn spell_next(&mut self, out: &mut [u8]) -> usize {
        match self.next() {
            Some(tag) => spell_tag(out, &tag),
            None => 0,
        }
    }

    fn measure_next(&mut self) -> usize {
        match self.next() {
            Some(tag) => tag_length(&tag),
            None => 0,
        }
    }
}

impl<'a> Spelling for DoneWalk<'a> {
    ghost use Rattle.std.specs.Prelude.{length};
    ghost use Rattle.std.specs.List.{flat_map, AllByRecursion};
    ghost use Rattle.terms.specs.declared.key.TheConstants.{MAX_COMPONENTS};
    ghost use Rattle.codec.specs.Spelling.{inst_bytes, IsInstance};

    ghost rest = { flat_map inst_bytes };

    ghost count = { length };

    ghost InRange = { AllByRecursion (IsInstance MAX_COMPONENTS) };

    fn spell_next(&mut self, out: &mut [u8]) -> usize {
        match self.next() {
            Some(instance) => spell_instance(out, &instance),
            None => 0,
        }
    }

    fn measure_next(&mut self) -> usize {
        match self.next() {
            Some(instance) => instance_length(&instance),
            None => 0,
        }
    }
}
