use crate::Machine;
use instances::{DoneWalk, State, TagWalk};
use items::Walk;
use maps::Hint;
use terms::{Addr, Inst, Producer, Tag};

/// What a store holds, as whoever checks it looks at it. No call allocates memory.
impl Machine {
    ghost use Rattle.std.specs.Prelude.{◌≡◌, map};
    ghost use Rattle.std.specs.FinMap.{entries};
    ghost use Rattle.terms.specs.Facts.{done as is_over};
    ghost use Rattle.items.specs.Held.{address_at, item_at};
    ghost use Rattle.instances.specs.Known.{mark_of, tag_at};
    ghost use Rattle.instances.specs.Listed.{AreTheDone, all_done};
    ghost use Rattle.machine.specs.Machine.{facts};

    /// The item at an address and who put it, if there is one.
    pub fn item(&self, addr: Addr) -> Option<(i64, Producer)>
        ensures { result ≡ item_at self.now.memory.items addr }
    {
        self.memory.items.get(addr)
    }

    /// Whether the environment put a tag, if it is there.
    pub fn mark(&self, tag: Tag) -> Option<bool>
        ensures { result ≡ mark_of self.now.memory.instances tag }
    {
        self.memory.instances.mark(tag)
    }

    /// Whether an instance is done.
    pub fn is_done(&self, inst: Inst) -> bool
        ensures { result ≡ facts self.now (is_over inst) }
    {
        match self.memory.instances.state(inst) {
            Some(State::Done) => true,
            _ => false,
        }
    }

    /// The same as `item`. It looks first where the hint says, and sets the hint to where the address is or would be. So do the next two.
    pub fn item_near(&self, addr: Addr, hint: &mut Hint) -> Option<(i64, Producer)>
        ensures { result ≡ item_at self.now.memory.items addr }
    {
        self.memory.items.get_near(addr, hint)
    }

    /// The same as `mark`.
    pub fn mark_near(&self, tag: Tag, hint: &mut Hint) -> Option<bool>
        ensures { result ≡ mark_of self.now.memory.instances tag }
    {
        self.memory.instances.mark_near(tag, hint)
    }

    /// The same as `is_done`.
    pub fn is_done_near(&self, inst: Inst, hint: &mut Hint) -> bool
        ensures { result ≡ facts self.now (is_over inst) }
    {
        match self.memory.instances.state_near(inst, hint) {
            Some(State::Done) => true,
            _ => false,
        }
    }

    /// The items, each with who put it, in the order of their addresses.
    pub fn items(&self) -> Walk<'_>
        ensures { result ≡ map (λ entry. (address_at entry.0, entry.1)) (entries self.now.memory.items.items.items) }
    {
        self.memory.items.walk()
    }

    /// The tags, in order, each with a mark whether the environment put it.
    pub fn tags(&self) -> TagWalk<'_>
        ensures { result ≡ map (λ entry. (tag_at entry.0, entry.1)) (entries self.now.memory.instances.tags.items) }
    {
        self.memory.instances.tags()
    }

    /// The instances that are done, by step and then by key.
    pub fn done(&self) -> DoneWalk<'_>
        ensures walk { result ≡ all_done self.now.memory.instances }
        ensures done { AreTheDone self.now.memory.instances result }
    {
        self.memory.instances.done_walk()
    }
}
