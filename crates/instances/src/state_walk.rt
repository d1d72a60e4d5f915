use crate::State;
use crate::standing::Standing;
use crate::states::state_of;
use maps::KeyWalk;
use std::collections::BTreeMap;
use std::marker::Model;
use terms::{Addr, Key};

/// The instances that are left of a walk, in the order of their keys, each with its state. It does not allocate.
#[derive(Drop)]
pub struct StateWalk<'a> {
    pub(crate) standings: KeyWalk<'a, Standing>,
    // The addresses at which instances of the step wait; none if there are no instances.
    pub(crate) addresses: Option<&'a BTreeMap<Key, Addr>>,
}

impl<'a> Model for StateWalk<'a> {
    ghost use Rattle.std.specs.Prelude.{ℤ, List, map};
    ghost use Rattle.std.specs.Option.{option_copied};
    ghost use Rattle.instances.specs.declared.state.State.{State as InstanceState};
    ghost use Rattle.instances.specs.Standings.{kept_in, stated};

    ghost Value = { List (List ℤ × InstanceState) };

    ghost view = { λ w. map (stated (kept_in (option_copied w.addresses))) w.standings };
}

impl<'a> StateWalk<'a> {
    ghost use Rattle.std.specs.Prelude.{◌≡◌, []};

    /// No instances.
    pub(crate) fn none() -> Self
        ensures { result ≡ [] }
    {
        StateWalk {
            standings: KeyWalk::none(),
            addresses: None,
        }
    }
}

impl<'a> Iterator for StateWalk<'a> {
    type Item = (Key, State);

    ghost use Rattle.std.specs.Iterator.{YieldsFirst, item_count};

    ghost next_gives = { YieldsFirst (λ w. w) };

    ghost remaining = { item_count (λ w. w) };

    fn next(&mut self) -> Option<(Key, State)> {
        let (key, standing) = self.standings.next()?;
        let state = state_of(standing, self.addresses, key);
        Some((key, state))
    }
}
