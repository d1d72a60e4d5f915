ghost use Rattle.std.specs.Prelude.{◌≡◌};
ghost use Rattle.std.specs.Option.{option_copied};
ghost use Rattle.instances.specs.Standings.{address_in, first_of, kept_in, state_with};

use crate::State;
use crate::done_maps::mark_others;
use crate::standing::Standing;
use crate::state_walk::StateWalk;
use maps::{Hint, KeyMap, MarkedMap};
use std::alloc::{AllocError, Global};
use std::collections::BTreeMap;
use std::marker::Model;
use terms::{Addr, Key};

/// The state of each instance of a step, by its key: one byte, and the address beside it for those that wait. Room for an address is
/// made when an instance begins to wait, and is given back when it no longer waits.
#[derive(Drop)]
pub(crate) struct States {
    standings: KeyMap<Standing>,
    addresses: BTreeMap<Key, Addr>,
}

impl Model for States {
    ghost use Rattle.instances.specs.declared.state.State.{State as InstanceState};
    ghost use Rattle.maps.specs.Keyed.{Keyed};
    ghost use Rattle.maps.specs.Codes.{keyed_code};
    ghost use Rattle.instances.specs.Codes.{state_code};
    ghost use Rattle.instances.specs.Standings.{joined};

    ghost Value = { Keyed InstanceState };

    ghost coded = { keyed_code state_code };

    ghost view = { λ s. record { items = joined s.standings.items s.addresses.entries; room = s.standings.room } };
}

impl States {
    ghost use Rattle.std.specs.Prelude.{◌≡◌, ◌<◌, ◌≤◌, IfOk, IsSome, OnErr, OnOk, None, cond, length};
    ghost use Rattle.std.specs.FinMap.{entries, get, insert};
    ghost use Rattle.maps.specs.Keyed.{none, Adds};
    ghost use Rattle.instances.specs.declared.state.State.TheVariants.{Ready, Waiting, Done};
    ghost use Rattle.instances.specs.MarkedDone.{MarksDone};
    ghost use Rattle.instances.specs.Standings.{state_with, IsPlain};

    /// No instances, and no room.
    pub(crate) fn new(alloc: Global) -> Self
        ensures { result ≡ none }
    {
        States {
            standings: KeyMap::new(alloc),
            addresses: BTreeMap::new(alloc),
        }
    }

    /// The state of an instance, if it is there.
    pub(crate) fn get(&self, key: Key) -> Option<State>
        ensures { result ≡ get self.now.items key }
    {
        let standing = self.standings.get(key)?;
        Some(state_of(standing, Some(&self.addresses), key))
    }

    /// The same as `get`. It looks first where the hint says, and sets the hint to where the key is or would be.
    pub(crate) fn get_near(&self, key: Key, hint: &mut Hint) -> Option<State>
        ensures { result ≡ get self.now.items key }
    {
        let standing = self.standings.get_near(key, hint)?;
        Some(state_of(standing, Some(&self.addresses), key))
    }

    /// The instances with their states, in the order of their keys.
    pub(crate) fn walk(&self) -> StateWalk<'_>
        ensures { result ≡ entries self.now.items }
    {
        StateWalk {
            standings: self.standings.walk(),
            addresses: Some(&self.addresses),
        }
    }

    /// The instances that are done, none of them marked.
    pub(crate) fn done_marks(&self, alloc: Global) -> Result<MarkedMap<'_, Standing>, AllocError>
        ensures { IfOk result (MarksDone self.now.items) }
    {
        match self.standings.marks(alloc) {
            Ok(unmarked) => {
                let mut marks = unmarked;
                mark_others(&mut marks, self.standings.walk());
                Ok(marks)
            }
            Err(error) => Err(error),
        }
    }

    /// The number of instances.
    pub(crate) fn count(&self) -> usize
        ensures { result ≡ length (entries self.now.items) }
    {
        self.standings.count()
    }

    /// The number of further instances that there is room for.
    pub(crate) fn room(&self) -> usize
        ensures { result ≡ self.now.room }
    {
        self.standings.room()
    }

    /// Makes room for `count` more instances. It fails only if there was less room, and then changes nothing.
    pub(crate) fn make_room(&mut self, count: usize) -> Result<(), AllocError>
        ensures items { self.new.items ≡ self.old.items }
        ensures ok { OnOk result (count ≤ self.new.room) }
        ensures not_less { self.old.room ≤ self.new.room }
        ensures enough { count ≤ self.old.room → self.new ≡ self.old }
        ensures refused { OnErr result ((self.new ≡ self.old) × (self.old.room < count)) }
    {
        self.standings.make_room(count)
    }

    /// Adds an instance that is done, or one that is ready.
    pub(crate) fn add(&mut self, key: Key, is_done: bool)
        requires absent { get self.old.items key ≡ None }
        requires room { 0 < self.old.room }
        ensures { Adds self.old self.new key (cond is_done Done Ready) }
    {
        let standing = first_standing(is_done);
        let _added = self.standings.insert(key, standing);
    }

    /// Gives an instance that does not wait, nor waits from now on, a new standing.
    pub(crate) fn set(&mut self, key: Key, standing: Standing)
        requires there { IsSome (get self.old.items key) }
        requires plain { IsPlain standing }
        ensures { self.new ≡ record { items = insert self.old.items key (state_with standing None); room = self.old.room } }
    {
        self.standings.set(key, standing);
    }

    /// Lets an instance wait at an address. An error changes nothing.
    pub(crate) fn wait(&mut self, key: Key, addr: Addr) -> Result<(), AllocError>
        requires { IsSome (get self.old.items key) }
        ensures ok { OnOk result (self.new ≡ record { items = insert self.old.items key (Waiting addr); room = self.old.room }) }
        ensures refused { OnErr result (self.new ≡ self.old) }
    {
        let name = key;
        self.addresses.insert(name, addr)?;
        self.standings.set(key, Standing::Waiting);
        Ok(())
    }

    /// Makes an instance ready that waited.
    pub(crate) fn wake(&mut self, key: Key)
        requires { IsSome (get self.old.items key) }
        ensures { self.new ≡ record { items = insert self.old.items key Ready; room = self.old.room } }
    {
        let _address = self.addresses.remove(&key);
        self.standings.set(key, Standing::Ready);
    }
}

/// The state of an instance that stands so, by the addresses at which instances wait.
pub(crate) fn state_of(
    standing: Standing,
    addresses: Option<&BTreeMap<Key, Addr>>,
    key: Key,
) -> State
    ensures { result ≡ state_with standing (address_in (kept_in (option_copied addresses.entry)) key) }
{
    match standing {
        Standing::Ready => State::Ready,
        Standing::Running => State::Running,
        Standing::Waiting => match address_of(addresses, key) {
            Some(addr) => State::Waiting(addr),
            None => State::Ready,
        },
        Standing::Done => State::Done,
    }
}

// The address that is kept for a key.
fn address_of(addresses: Option<&BTreeMap<Key, Addr>>, key: Key) -> Option<Addr>
    ensures { result ≡ address_in (kept_in (option_copied addresses.entry)) key }
{
    addresses?.get(&key).copied()
}

// How an instance stands at first.
fn first_standing(is_done: bool) -> Standing
    ensures { result ≡ first_of is_done }
{
    if is_done {
        Standing::Done
    } else {
        Standing::Ready
    }
}
