ghost use Rattle.std.specs.Prelude.{◌≡◌, ◌<◌, ◌^◌, length};

use std::alloc::{AllocError, Global};
use terms::{Event, Put};

/// How many puts go to each item collection and to each tag collection, by the numbers of the collections.
///
/// A list has fewer than `2 ^ 64` puts, but several lists may have more. So the counts have 128 bits, and none overflows.
#[derive(Drop)]
pub(crate) struct Tally {
    pub(crate) items: Vec<u128>,
    pub(crate) tags: Vec<u128>,
}

impl Tally {
    ghost use Rattle.std.specs.Prelude.{◌≡◌, ◌<◌, ◌-◌, ◌^◌, [], ◌∷◌, IfOk, length};
    ghost use Rattle.std.specs.List.{AllByRecursion};
    ghost use Rattle.machine.specs.Group.{puts_of_all};
    ghost use Rattle.machine.specs.Machine.{puts_of};
    ghost use Rattle.machine.specs.Tally.{Adds, AreAsMany, Counts, HasPlace, IsBelowMost, IsUpTo};

    /// A tally for these numbers of item collections and of tag collections.
    pub(crate) fn new(alloc: Global, items: usize, tags: usize) -> Result<Self, AllocError>
        ensures { IfOk result (λ tally. (length tally.items.items ≡ items) × (length tally.tags.items ≡ tags)) }
    {
        let items = vec![in alloc; 0; items]?;
        let tags = vec![in alloc; 0; tags]?;
        Ok(Tally { items, tags })
    }

    /// Counts the puts of a list, and forgets what was counted before. It allocates no memory.
    pub(crate) fn count(&mut self, puts: &[Put])
        requires { AllByRecursion (HasPlace self.old) puts.now }
        ensures counts { Counts self.new puts.now }
        ensures collections { AreAsMany self.old self.new }
    {
        self.clear();
        self.add_puts(puts);
    }

    /// Counts the puts of these events, and forgets what was counted before. It allocates no memory.
    pub(crate) fn count_all(&mut self, events: &[Event])
        requires { AllByRecursion (HasPlace self.old) (puts_of_all events.now) }
        ensures counts { Counts self.new (puts_of_all events.now) }
        ensures collections { AreAsMany self.old self.new }
    {
        self.clear();
        let total = number_of(events);
        for number in 0..total {
            self.add_event(&events[number]);
        }
    }

    // Forgets what was counted.
    fn clear(&mut self)
        ensures counts { Counts self.new [] }
        ensures collections { AreAsMany self.old self.new }
    {
        self.items.fill(0);
        self.tags.fill(0);
    }

    // Counts the puts of one more event.
    fn add_event(&mut self, event: &Event)
        requires places { AllByRecursion (HasPlace self.old) (puts_of event.now) }
        requires below { IsUpTo (2 ^ 128 - 2 ^ 64) self.old }
        ensures adds { Adds self.old self.new (puts_of event.now) }
        ensures fits { length (puts_of event.now) < 2 ^ 64 }
    {
        match event {
            Event::EnvItem(addr, value) => self.add(Put::Item(*addr, *value)),
            Event::EnvTag(tag) => self.add(Put::Tag(*tag)),
            Event::Done(_, puts) => self.add_puts(puts.as_slice()),
            Event::Stopped(_, _) => {}
        }
    }

    // Counts the puts of one more list.
    fn add_puts(&mut self, puts: &[Put])
        requires places { AllByRecursion (HasPlace self.old) puts.now }
        requires below { IsUpTo (2 ^ 128 - 2 ^ 64) self.old }
        ensures adds { Adds self.old self.new puts.now }
        ensures fits { length puts.now < 2 ^ 64 }
    {
        let total = number_of(puts);
        for number in 0..total {
            self.add(puts[number]);
        }
    }

    // Counts one more put.
    fn add(&mut self, put: Put)
        requires place { HasPlace self.old put }
        requires below { IsBelowMost self.old put }
        ensures { Adds self.old self.new (put ∷ []) }
    {
        match put {
            Put::Item(addr, _) => self.items[addr.collection.0 as usize] += 1,
            Put::Tag(tag) => self.tags[tag.collection.0 as usize] += 1,
        }
    }
}

// How many there are, as a number of 64 bits.
fn number_of<T>(list: &[T]) -> usize
    ensures number { result ≡ length list.now }
    ensures fits { result < 2 ^ 64 }
{
    list.len()
}
