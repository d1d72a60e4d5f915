ghost use Rattle.std.specs.Prelude.{◌≡◌, ◌<◌};
ghost use Rattle.steptree.specs.declared.slot.TheConstants.{MOST_NAMES};

use std::marker::Model;

/// The greatest number of names in a step: parameters and variables.
pub const MOST_NAMES: usize = 64;

/// The place of a parameter or variable among the names of its step, from 0, the parameters first.
#[derive(Clone, Copy, Debug)]
pub struct Slot {
    place: u8,
}

impl Model for Slot {
    ghost use Rattle.std.specs.Prelude.{ℕ, ◌<◌};
    ghost use Rattle.steptree.specs.declared.slot.TheConstants.{MOST_NAMES};

    ghost Value = { ℕ };

    ghost view = { λ s. s.place };

    ghost invariant = { λ s. s.place < MOST_NAMES };

    ghost inverse = { λ place. record { place = place } };
}

impl Slot {
    /// The slot at this place, which is below `MOST_NAMES`.
    pub fn new(place: usize) -> Self
        requires { place < MOST_NAMES }
        ensures { result ≡ place }
    {
        Slot { place: place as u8 }
    }

    /// Its place among the names of the step.
    pub fn place(self) -> usize
        ensures place { result ≡ self }
        ensures within { result < MOST_NAMES }
    {
        self.place as usize
    }
}
