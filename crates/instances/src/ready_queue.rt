ghost use Rattle.std.specs.Prelude.{◌≡◌, ◌<◌, ◌≤◌, IfSome, get_or, length};
ghost use Rattle.std.specs.List.Sorted.{IsPermutation};
ghost use Rattle.std.specs.VecDeque.{deque_capacity};
ghost use Rattle.instances.specs.declared.ready_queue.TheConstants.{PASSED};

use crate::queue_order::QueueOrder;
use std::alloc::{AllocError, Global};
use std::collections::VecDeque;
use std::mem;
use terms::Key;

// Behind how many smaller keys at the front of the queue a key is put, at most.
const PASSED: usize = 64;

/// The keys of the ready instances of a step. Some were handed out under the numbers of tickets.
///
/// A new one goes to the end of the queue, and one that already ran goes to its front, behind smaller ones that stand there. So they run in about the order in which they
/// came, whether they had to wait or not; but if many have to wait, those that are ready are put in the order of their keys: where several workers run the steps that put the tags,
/// these come out of order, and an instance often needs what one with a smaller key puts. No promise is made about that order.
#[derive(Drop)]
pub(crate) struct ReadyQueue {
    // Those that were not handed out, with room for all.
    queued: VecDeque<Key>,
    // Those that were, in the order in which they were; and, at the same places, the numbers of their tickets, which rise.
    handed: VecDeque<Key>,
    numbers: VecDeque<u64>,
    order: QueueOrder,
}

impl ReadyQueue {
    ghost use Rattle.std.specs.Prelude.{◌≡◌, ◌+◌, ◌<◌, ◌≤◌, [], ◌∷◌, false, true, IfOk, IfSome, IsSome, None, OnErr, OnOk, length};
    ghost use Rattle.std.specs.List.Sorted.{IsPermutation};
    ghost use Rattle.instances.specs.Queue.{IsAmong, capacity, keys};

    /// No keys.
    pub(crate) fn new(alloc: Global) -> Self
        ensures { keys result ≡ [] }
    {
        ReadyQueue {
            queued: VecDeque::new(alloc),
            handed: VecDeque::new(alloc),
            numbers: VecDeque::new(alloc),
            order: QueueOrder::new(),
        }
    }

    /// Their number.
    pub(crate) fn len(&self) -> usize
        ensures { result ≡ length (keys self.now) }
    {
        self.queued.len() + self.handed.len()
    }

    /// For how many keys it has room.
    pub(crate) fn capacity(&self) -> usize
        ensures { result ≡ capacity self.now }
    {
        self.queued.capacity()
    }

    /// Makes room for `count` keys more.
    pub(crate) fn reserve(&mut self, count: usize) -> Result<(), AllocError>
        ensures keys { keys self.new ≡ keys self.old }
        ensures ok { OnOk result (length (keys self.old) + count ≤ capacity self.new) }
        ensures not_less { capacity self.old ≤ capacity self.new }
    {
        let room = self.handed.len().checked_add(count).ok_or(AllocError)?;
        self.queued.reserve(room)
    }

    /// Puts a key at the end.
    pub(crate) fn put_last(&mut self, key: Key)
        requires { length (keys self.old) < capacity self.old }
        ensures keys { IsPermutation (key ∷ keys self.old) (keys self.new) }
        ensures capacity { capacity self.new ≡ capacity self.old }
    {
        self.order.note(self.queued.back(), Some(&key));
        self.queued.push_back_reserved(key);
    }

    /// Puts a key in front.
    pub(crate) fn put_first(&mut self, key: Key)
        requires { length (keys self.old) < capacity self.old }
        ensures keys { keys self.new ≡ key ∷ keys self.old }
        ensures capacity { capacity self.new ≡ capacity self.old }
    {
        self.order.note(Some(&key), self.queued.front());
        self.queued.push_front_reserved(key);
    }

    /// Puts a key in front, behind the smaller ones that stand there, up to `PASSED` of them.
    pub(crate) fn put_in_order(&mut self, key: Key)
        requires { length (keys self.old) < capacity self.old }
        ensures keys { IsPermutation (key ∷ keys self.old) (keys self.new) }
        ensures capacity { capacity self.new ≡ capacity self.old }
    {
        self.queued.push_front_reserved(key);
        let place = pass_smaller(&mut self.queued, &key);
        self.order.note(Some(&key), self.queued.get(place + 1));
    }

    /// Takes out the key with this number: those that were handed out come last.
    pub(crate) fn take(&mut self, at: usize) -> Option<Key>
        ensures some { at < length (keys self.old) → IsSome result }
        ensures none { length (keys self.old) ≤ at → (result ≡ None) × (self.new ≡ self.old) }
        ensures taken { IfSome result (λ key. IsPermutation (keys self.old) (key ∷ keys self.new)) }
        ensures capacity { capacity self.new ≡ capacity self.old }
    {
        let queued = self.queued.len();
        if at < queued {
            return self.queued.swap_remove_front(at);
        }
        let place = at - queued;
        let key = self.handed.remove(place)?;
        let _number = self.numbers.remove(place);
        Some(key)
    }

    /// Takes out a key, if it was handed out under this number. Says whether it was.
    pub(crate) fn take_under(&mut self, number: u64, key: Key) -> bool
        ensures taken { result ≡ true → IsPermutation (keys self.old) (key ∷ keys self.new) }
        ensures none { result ≡ false → self.new ≡ self.old }
        ensures capacity { capacity self.new ≡ capacity self.old }
    {
        let Some(place) = place_of(&self.numbers, &self.handed, number, key) else {
            return false;
        };
        let _key = self.handed.remove(place);
        let _number = self.numbers.remove(place);
        true
    }

    /// Whether a key was handed out under this number.
    pub(crate) fn is_under(&self, number: u64, key: Key) -> bool {
        place_of(&self.numbers, &self.handed, number, key).is_some()
    }

    /// Hands out the first key that was not handed out, under this number; its ticket is made of it. An error changes nothing.
    pub(crate) fn hand_out(&mut self, number: u64) -> Result<Option<Key>, AllocError>
        ensures keys { IsPermutation (keys self.old) (keys self.new) }
        ensures capacity { capacity self.new ≡ capacity self.old }
        ensures handed { IfOk result (λ handed. IfSome handed (IsAmong (keys self.old))) }
    {
        if self.queued.is_empty() {
            return Ok(None);
        }
        self.handed.reserve(1)?;
        self.numbers.reserve(1)?;
        let Some(key) = self.queued.pop_front() else {
            return Ok(None);
        };
        self.handed.push_back_reserved(key);
        self.numbers.push_back_reserved(number);
        Ok(Some(key))
    }

    /// Puts those that were handed out in front again, in their order: no number stands for any of them now.
    pub(crate) fn recall(&mut self)
        requires { length (keys self.old) ≤ capacity self.old }
        ensures keys { IsPermutation (keys self.old) (keys self.new) }
        ensures capacity { capacity self.new ≡ capacity self.old }
    {
        for _ in 0..self.handed.len() {
            self.give_back();
        }
        self.numbers.clear();
    }

    // Puts the last one of those that were handed out in front again.
    fn give_back(&mut self)
        requires { length (keys self.old) ≤ capacity self.old }
        ensures keys { IsPermutation (keys self.old) (keys self.new) }
        ensures capacity { capacity self.new ≡ capacity self.old }
    {
        let Some(key) = self.handed.pop_back() else {
            return;
        };
        self.put_first(key);
    }

    /// Notes that an instance begins to wait: the keys that were not handed out are put in order, if they are not and enough have begun to wait to make it worth while.
    pub(crate) fn note_wait(&mut self)
        ensures keys { IsPermutation (keys self.old) (keys self.new) }
        ensures capacity { capacity self.new ≡ capacity self.old }
    {
        if self.order.is_due(self.queued.len()) {
            let empty = VecDeque::new(*self.queued.allocator());
            let mut keys = mem::replace(&mut self.queued, empty).into_vec();
            keys.sort_unstable();
            self.queued = VecDeque::from_vec(keys);
        }
    }
}

// Moves the first key, which is this one, behind the smaller ones after it, up to `PASSED` of them. Returns its place.
fn pass_smaller(queued: &mut VecDeque<Key>, key: &Key) -> usize
    ensures place { result ≤ PASSED }
    ensures keys { IsPermutation queued.old.items queued.new.items }
    ensures capacity { deque_capacity queued.new ≡ deque_capacity queued.old }
{
    for place in 0..PASSED {
        let next = place + 1;
        if next >= queued.len() || !queued[next].cmp(key).is_lt() {
            return place;
        }
        queued.swap(place, next);
    }
    PASSED
}

// The place at which a key was handed out under this number, if it was.
fn place_of(numbers: &VecDeque<u64>, handed: &VecDeque<Key>, number: u64, key: Key) -> Option<usize>
    ensures { IfSome result (λ place. (place < length handed.now.items) × (key ≡ get_or handed.now.items place key)) }
{
    let place = numbers.binary_search(&number).ok()?;
    if place < handed.len() && handed[place].cmp(&key).is_eq() {
        Some(place)
    } else {
        None
    }
}
