use crate::State;
use crate::state_walk::StateWalk;
use crate::step::Step;
use std::marker::Model;
use terms::{Inst, StepCollection};

/// The instances that are left of a walk, by step and then by key, each with its state. It does not allocate.
#[derive(Drop)]
pub struct InstanceWalk<'a> {
    // What is left of the step with this number, and the steps after it.
    pub(crate) number: u16,
    pub(crate) entries: StateWalk<'a>,
    pub(crate) steps: &'a [Step],
}

impl<'a> Model for InstanceWalk<'a> {
    ghost use Rattle.std.specs.Prelude.{◌+◌, ◌<◌, ◌^◌, List, length};
    ghost use Rattle.terms.specs.declared.name.Inst.{Inst as Instance};
    ghost use Rattle.instances.specs.declared.state.State.{State as InstanceState};
    ghost use Rattle.instances.specs.AllInstances.{left_of};

    ghost Value = { List (Instance × InstanceState) };

    ghost view = { λ w. left_of w.number w.entries w.steps.now };

    ghost invariant = { λ w. w.number + length w.steps.now < 2 ^ 16 };
}

impl<'a> Iterator for InstanceWalk<'a> {
    type Item = (Inst, State);

    ghost use Rattle.std.specs.Iterator.{YieldsFirst, item_count};

    ghost next_gives = { YieldsFirst (λ w. w) };

    ghost remaining = { item_count (λ w. w) };

    fn next(&mut self) -> Option<(Inst, State)> {
        loop {
            if let Some((key, state)) = self.entries.next() {
                let collection = StepCollection(self.number);
                return Some((Inst { collection, key }, state));
            }
            let (step, others) = self.steps.split_first()?;
            self.entries = step.instances.walk();
            self.steps = others;
            self.number += 1;
        }
    }
}
