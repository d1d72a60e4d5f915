ghost use Rattle.std.specs.Prelude.{◌≡◌, ◌≤◌, ◌<◌, ◌++◌, [], length, take};

use crate::elements::Elements;
use crate::spelling::ItemsLeft;
use codec::{Chain, ImageSource};
use instances::{DoneWalk, TagWalk};
use std::marker::Model;

/// The bytes of the image of what a store holds, which are given piece by piece. It lists nothing, and keeps the bytes of one element of
/// each list.
#[derive(Drop)]
pub struct ImageWalk<'a> {
    // The fault and the items, the tags, and the instances that are done.
    parts: Chain<Chain<Elements<ItemsLeft<'a>>, Elements<TagWalk<'a>>>, Elements<DoneWalk<'a>>>,
}

impl<'a> Model for ImageWalk<'a> {
    ghost use Rattle.std.specs.Prelude.{◌++◌, ℕ, List};

    ghost Value = { List ℕ };

    ghost view = { λ w. w.parts.first.first ++ w.parts.first.second ++ w.parts.second };
}

impl<'a> ImageWalk<'a> {
    /// The items, with the fault before them, the tags and the done instances.
    pub(crate) fn new(
        items: Elements<ItemsLeft<'a>>,
        tags: Elements<TagWalk<'a>>,
        done: Elements<DoneWalk<'a>>,
    ) -> Self
        ensures { result ≡ items.entry ++ tags.entry ++ done.entry }
    {
        ImageWalk {
            parts: Chain::new(Chain::new(items, tags), done),
        }
    }
}

impl<'a> ImageSource for ImageWalk<'a> {
    ghost left = { λ w. w };

    fn length(&self) -> u64 {
        self.parts.length()
    }

    fn piece(&mut self, out: &mut [u8]) -> usize {
        fill(&mut self.parts, out)
    }
}

// Writes pieces one after another, until `out` is full or nothing is left.
fn fill<S: ImageSource>(source: &mut S, out: &mut [u8]) -> usize
    ensures within { result ≤ length out.old }
    ensures room { length out.new ≡ length out.old }
    ensures gives { S.left source.old ≡ take result out.new ++ S.left source.new }
    ensures some { 0 < length out.old → result ≡ 0 → S.left source.old ≡ [] }
    ensures full { result < length out.old → S.left source.new ≡ [] }
{
    let mut count = 0;
    while count < out.len() {
        let more = source.piece(&mut out[count..]);
        if more == 0 {
            return count;
        }
        count += more;
    }
    count
}
