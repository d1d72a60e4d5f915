//! Numbers drawn from a seed: the same seed gives the same numbers.
ghost use Rattle.std.specs.Prelude.{◌<◌};

use commit::Choose;

/// A generator of numbers: SplitMix64, of Steele, Lea and Flood.
#[derive(Clone, Copy)]
pub(crate) struct Random {
    state: u64,
}

impl Random {
    pub(crate) fn new(seed: u64) -> Self {
        Random { state: seed }
    }

    // The next number.
    fn draw(&mut self) -> u64 {
        self.state = self.state.wrapping_add(0x9e37_79b9_7f4a_7c15);
        let mixed = (self.state ^ (self.state >> 30)).wrapping_mul(0xbf58_476d_1ce4_e5b9);
        let mixed = (mixed ^ (mixed >> 27)).wrapping_mul(0x94d0_49bb_1331_11eb);
        mixed ^ (mixed >> 31)
    }

    /// A number from 0 up to, but not including, `count`.
    pub(crate) fn below(&mut self, count: usize) -> usize
        requires { 0 < count }
        ensures { result < count }
    {
        (self.draw() % count as u64) as usize
    }
}

impl Choose for Random {
    fn pick(&mut self, ready: usize) -> usize {
        self.below(ready)
    }
}
