use maps::Walk;
use std::cmp::Ordering;
use std::marker::Model;
use terms::Key;

/// The instances that ended, each by the number of its step and its key, in order: those that are left of a walk.
#[derive(Drop)]
pub(crate) struct Ended<'a> {
    next: Option<((u16, Key), ())>,
    others: Walk<'a, ()>,
}

impl<'a> Model for Ended<'a> {
    ghost use Rattle.std.specs.Prelude.{⊤, List};
    ghost use Rattle.maps.specs.Numbered.{Place};
    ghost use Rattle.instances.specs.Ended.{with_next};

    ghost Value = { List (Place × ⊤) };

    ghost view = { λ e. with_next e.next e.others };
}

impl<'a> Ended<'a> {
    ghost use Rattle.std.specs.Prelude.{◌≡◌, T, is_some};
    ghost use Rattle.std.specs.FinMap.{find, is_sorted};
    ghost use Rattle.maps.specs.Numbered.{place_cmp};
    ghost use Rattle.instances.specs.Ended.{IsPassed};

    /// All that a walk has left.
    pub(crate) fn new(walk: Walk<'a, ()>) -> Self
        ensures { result ≡ walk.entry }
    {
        let mut others = walk;
        let next = others.next();
        Ended { next, others }
    }

    /// Whether the instance with this number and key is among those that are left. It goes past those before it, so ask for one
    /// after another in order.
    pub(crate) fn reaches(&mut self, number: u16, key: Key) -> bool
        requires { T (is_sorted place_cmp self.old) }
        ensures found { result ≡ is_some (find place_cmp (number, key) self.old) }
        ensures passed { IsPassed self.old self.new (number, key) }
    {
        while let Some((place, _)) = self.next {
            match place.cmp(&(number, key)) {
                Ordering::Less => self.next = self.others.next(),
                Ordering::Equal => return true,
                Ordering::Greater => return false,
            }
        }
        false
    }
}
