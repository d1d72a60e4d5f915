use crate::State;
use crate::ready_queue::ReadyQueue;
use crate::standing::Standing;
use crate::state_walk::StateWalk;
use crate::states::States;
use maps::{Hint, MarkedMap};
use std::alloc::{AllocError, Global};
use std::marker::Model;
use terms::{Addr, Key};

/// The instances of one step, each with its state. No later change of an instance needs memory, except that it begins to wait: its other room is
/// there from the moment when it was added.
#[derive(Drop)]
pub(crate) struct StepInstances {
    states: States,
    // Those that are ready, with room for all instances.
    ready: ReadyQueue,
    running: usize,
    waiting: usize,
}

impl Model for StepInstances {
    ghost use Rattle.std.specs.Prelude.{◌≡◌, ◌-◌, length, min};
    ghost use Rattle.std.specs.FinMap.{entries};
    ghost use Rattle.instances.specs.Codes.{of_step_code};
    ghost use Rattle.instances.specs.OfStep.{OfStep, IsKept, how_many, is_waiting};
    ghost use Rattle.instances.specs.Queue.{capacity, keys};

    ghost Value = { OfStep };

    ghost coded = { of_step_code };

    ghost view = { λ s. record { states = s.states.items; room = min s.states.room (capacity s.ready - length (entries s.states.items)) } };

    ghost invariant = { λ s. IsKept s.states.items (keys s.ready) s.running (capacity s.ready) × (s.waiting ≡ how_many is_waiting s.states.items) };
}

impl StepInstances {
    ghost use Rattle.std.specs.Prelude.{◌≡◌, ◌+◌, ◌<◌, ◌≤◌, IfOk, IfSome, IsSome, OnOk, OnErr, Some, None, cond, false, length, true};
    ghost use Rattle.std.specs.FinMap.{empty, entries, get};
    ghost use Rattle.instances.specs.declared.state.State.TheVariants.{Ready, Running, Waiting, Done};
    ghost use Rattle.instances.specs.MarkedDone.{MarksDone};
    ghost use Rattle.instances.specs.OfStep.{is_ready, is_running, is_waiting, is_done, how_many, IsWaiting, Moves, AddsInstance};

    /// No instances.
    pub(crate) fn new(alloc: Global) -> Self
        ensures { result ≡ record { states = empty; room = 0 } }
    {
        StepInstances {
            states: States::new(alloc),
            ready: ReadyQueue::new(alloc),
            running: 0,
            waiting: 0,
        }
    }

    /// The state of an instance, if it is prescribed.
    pub(crate) fn state(&self, key: Key) -> Option<State>
        ensures { result ≡ get self.now.states key }
    {
        self.states.get(key)
    }

    /// The same as `state`. It looks first where the hint says.
    pub(crate) fn state_near(&self, key: Key, hint: &mut Hint) -> Option<State>
        ensures { result ≡ get self.now.states key }
    {
        self.states.get_near(key, hint)
    }

    /// The instances with their states, in the order of their keys.
    pub(crate) fn walk(&self) -> StateWalk<'_>
        ensures { result ≡ entries self.now.states }
    {
        self.states.walk()
    }

    /// The instances that are done, none of them marked.
    pub(crate) fn done_marks(&self, alloc: Global) -> Result<MarkedMap<'_, Standing>, AllocError>
        ensures { IfOk result (MarksDone self.now.states) }
    {
        self.states.done_marks(alloc)
    }

    /// The number of instances.
    pub(crate) fn count(&self) -> usize
        ensures { result ≡ length (entries self.now.states) }
    {
        self.states.count()
    }

    /// The number of ready instances.
    pub(crate) fn ready(&self) -> usize
        ensures { result ≡ how_many is_ready self.now.states }
    {
        self.ready.len()
    }

    /// The number of instances that run.
    pub(crate) fn running(&self) -> usize
        ensures { result ≡ how_many is_running self.now.states }
    {
        self.running
    }

    /// The number of instances that wait.
    pub(crate) fn waiting(&self) -> usize
        ensures { result ≡ how_many is_waiting self.now.states }
    {
        self.waiting
    }

    /// The number of instances that are done: all that are neither ready nor running, and do not wait.
    pub(crate) fn done(&self) -> usize
        ensures { result ≡ how_many is_done self.now.states }
    {
        self.count() - self.ready() - self.running() - self.waiting()
    }

    /// The number of further instances that there is room for.
    pub(crate) fn room(&self) -> usize
        ensures { result ≡ self.now.room }
    {
        self.states
            .room()
            .min(self.ready.capacity() - self.states.count())
    }

    /// Makes room for `count` more instances. It fails only if there was less room.
    pub(crate) fn make_room(&mut self, count: usize) -> Result<(), AllocError>
        ensures states { self.new.states ≡ self.old.states }
        ensures ok { OnOk result (count ≤ self.new.room) }
        ensures not_less { self.old.room ≤ self.new.room }
        ensures enough { count ≤ self.old.room → self.new ≡ self.old }
        ensures refused { OnErr result (self.old.room < count) }
    {
        if count <= self.room() {
            return Ok(());
        }
        self.states.make_room(count)?;
        let others = self.states.count() - self.ready.len();
        self.ready
            .reserve(others.checked_add(count).ok_or(AllocError)?)
    }

    /// Adds an instance that is done, or one that can be claimed.
    pub(crate) fn add(&mut self, key: Key, is_done: bool)
        requires absent { get self.old.states key ≡ None }
        requires room { 0 < self.old.room }
        ensures { AddsInstance self.old self.new key (cond is_done Done Ready) }
    {
        if is_done {
            self.add_done(key);
        } else {
            self.add_ready(key);
        }
    }

    // Adds an instance that can be claimed.
    fn add_ready(&mut self, key: Key)
        requires absent { get self.old.states key ≡ None }
        requires room { 0 < self.old.room }
        ensures { AddsInstance self.old self.new key Ready }
    {
        self.states.add(key, false);
        self.ready.put_last(key);
    }

    // Adds an instance that is done. Room for it among the ready ones is kept, as for all others.
    fn add_done(&mut self, key: Key)
        requires absent { get self.old.states key ≡ None }
        requires room { 0 < self.old.room }
        ensures { AddsInstance self.old self.new key Done }
    {
        self.states.add(key, true);
    }

    /// Lets one of the ready instances run, by its number among them, and returns its key.
    pub(crate) fn claim(&mut self, at: usize) -> Option<Key>
        ensures some { at < how_many is_ready self.old.states → IsSome result }
        ensures none { how_many is_ready self.old.states ≤ at → (result ≡ None) × (self.new ≡ self.old) }
        ensures claimed { IfSome result (λ key. (get self.old.states key ≡ Some Ready) × Moves self.old self.new key Running) }
    {
        let key = self.ready.take(at)?;
        self.states.set(key, Standing::Running);
        self.running += 1;
        Some(key)
    }

    /// Lets an instance run that was handed out under this number. Says whether it was.
    pub(crate) fn claim_under(&mut self, number: u64, key: Key) -> bool
        ensures claimed { result ≡ true → (get self.old.states key ≡ Some Ready) × Moves self.old self.new key Running }
        ensures none { result ≡ false → self.new ≡ self.old }
    {
        if !self.ready.take_under(number, key) {
            return false;
        }
        self.states.set(key, Standing::Running);
        self.running += 1;
        true
    }

    /// Whether an instance is ready, and was handed out under this number.
    pub(crate) fn is_under(&self, number: u64, key: Key) -> bool {
        self.ready.is_under(number, key)
    }

    /// Hands out a ready instance under this number, if there is one that was not handed out. An error changes nothing.
    pub(crate) fn hand_out(&mut self, number: u64) -> Result<Option<Key>, AllocError>
        ensures same { self.new ≡ self.old }
        ensures ready { IfOk result (λ handed. IfSome handed (λ key. get self.old.states key ≡ Some Ready)) }
    {
        self.ready.hand_out(number)
    }

    /// No ready instance counts as handed out any more.
    pub(crate) fn recall(&mut self)
        ensures { self.new ≡ self.old }
    {
        self.ready.recall();
    }

    /// Ends an instance that runs.
    pub(crate) fn finish(&mut self, key: Key)
        requires { get self.old.states key ≡ Some Running }
        ensures { Moves self.old self.new key Done }
    {
        self.states.set(key, Standing::Done);
        self.running -= 1;
    }

    // Lets an instance that runs wait at an address. An error changes nothing.
    fn park(&mut self, key: Key, addr: Addr) -> Result<(), AllocError>
        requires { get self.old.states key ≡ Some Running }
        ensures ok { OnOk result (Moves self.old self.new key (Waiting addr)) }
        ensures refused { OnErr result (self.new ≡ self.old) }
    {
        self.states.wait(key, addr)?;
        self.running -= 1;
        self.waiting += 1;
        Ok(())
    }

    /// Lets an instance that runs wait at an address. If memory is refused, it is given back.
    pub(crate) fn park_or_release(&mut self, key: Key, addr: Addr) -> Result<(), AllocError>
        requires { get self.old.states key ≡ Some Running }
        ensures ok { OnOk result (Moves self.old self.new key (Waiting addr)) }
        ensures refused { OnErr result (Moves self.old self.new key Ready) }
    {
        match self.park(key, addr) {
            Ok(()) => {
                self.ready.note_wait();
                Ok(())
            }
            Err(error) => {
                self.release(key);
                Err(error)
            }
        }
    }

    /// Gives back an instance that runs.
    pub(crate) fn release(&mut self, key: Key)
        requires { get self.old.states key ≡ Some Running }
        ensures { Moves self.old self.new key Ready }
    {
        self.states.set(key, Standing::Ready);
        self.ready.put_in_order(key);
        self.running -= 1;
    }

    /// Makes a waiting instance ready.
    pub(crate) fn wake(&mut self, key: Key)
        requires { IsWaiting (get self.old.states key) }
        ensures { Moves self.old self.new key Ready }
    {
        self.states.wake(key);
        self.ready.put_in_order(key);
        self.waiting -= 1;
    }
}
