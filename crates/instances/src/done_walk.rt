use crate::InstanceWalk;
use crate::listing::done_entry;
use std::marker::Model;
use terms::Inst;

/// The done instances that are left of a walk, by step and then by key. It does not allocate.
#[derive(Drop)]
pub struct DoneWalk<'a> {
    pub(crate) walk: InstanceWalk<'a>,
}

impl<'a> Model for DoneWalk<'a> {
    ghost use Rattle.std.specs.Prelude.{List};
    ghost use Rattle.std.specs.List.{filter_map};
    ghost use Rattle.terms.specs.declared.name.Inst.{Inst as Instance};
    ghost use Rattle.instances.specs.Listed.{if_done};

    ghost Value = { List Instance };

    ghost view = { λ w. filter_map (λ entry. if_done entry.0 entry.1) w.walk };
}

impl<'a> Iterator for DoneWalk<'a> {
    type Item = Inst;

    ghost use Rattle.std.specs.Iterator.{YieldsFirst, item_count};

    ghost next_gives = { YieldsFirst (λ w. w) };

    ghost remaining = { item_count (λ w. w) };

    fn next(&mut self) -> Option<Inst> {
        while let Some((inst, state)) = self.walk.next() {
            let done = done_entry(inst, state);
            if done.is_some() {
                return done;
            }
        }
        None
    }
}
