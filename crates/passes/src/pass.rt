use crate::{Naming, View};
use atomic_table::Badge;
use std::marker::{Model, PhantomData};

/// Who has a pass: the environment, or a worker.
pub trait Kind {
    ghost use Rattle.std.specs.Prelude.{ℕ};
    ghost use Rattle.terms.specs.declared.event.Event.{Event};

    /// The events that may be made with it.
    ghost makes: { Event → Type 0 };

    /// For a count of the environment's passes, which come first: whether a pass of this kind may have this number.
    ghost is_numbered: { ℕ → ℕ → Type 0 };
}

/// The right to call what stands under the lock. A contract sees what its holder knows.
///
/// It belongs to the words that its type names. By their rule no two seats have a pass of one number.
#[derive(Drop)]
pub struct Pass<J: Naming, K: Kind> {
    pub(crate) number: usize,
    pub(crate) badge: Badge<View>,
    pub(crate) of: PhantomData<(J, K)>,
}

impl<J: Naming, K: Kind> Model for Pass<J, K> {
    ghost use Rattle.std.specs.Prelude.{◌≡◌};
    ghost use Rattle.std.specs.List.{AllByRecursion};
    ghost use Rattle.terms.specs.Commits.{events_of};
    ghost use Rattle.passes.specs.Known.{Known};
    ghost use Rattle.passes.specs.Steps.{known, IsBadge};

    ghost Value = { Known };

    ghost view = { λ p. known p.badge.views };

    ghost invariant = { λ p. IsBadge J.table p.badge × (p.number ≡ (known p.badge.views).number) × AllByRecursion K.makes (events_of (known p.badge.views).mine) × K.is_numbered J.envs (known p.badge.views).number };
}

impl<J: Naming, K: Kind> Pass<J, K> {
    ghost use Rattle.std.specs.Prelude.{◌≡◌};

    /// The number of the pass. Its kind may have it.
    pub fn number(&self) -> usize
        ensures number { result ≡ self.now.number }
        ensures of_kind { K.is_numbered J.envs self.now.number }
    {
        self.number
    }
}
