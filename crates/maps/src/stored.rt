ghost use Rattle.std.specs.Prelude.{◌≡◌, ◌+◌, ◌<◌, ◌≤◌, ◌^◌, ◌++◌, ℕ, ℤ, List, length};
ghost use Rattle.terms.specs.declared.key.TheConstants.{MAX_COMPONENTS};
ghost use Rattle.std.specs.Vec.{vec_capacity};
ghost use Rattle.std.proofs.Common.{arith};
ghost use Rattle.maps.specs.declared.stored.Brief.{Brief as Beside};
ghost use Rattle.maps.specs.Stored.{bool_brief, bool_said, by_whom, item_brief, item_said, item_words, no_brief, no_words, same_bool, same_item, same_unit};

use terms::{Inst, Key, MAX_COMPONENTS, Producer, StepCollection};

/// The small numbers of a value that a map keeps. They stand beside its key.
#[derive(Clone, Copy, Debug)]
pub struct Brief {
    pub number: u32,
    pub half: u16,
    pub small: u8,
}

/// A value that a map keeps, as small numbers and a few words of 64 bits.
pub trait Stored: Copy {
    ghost brief_of: { Self → Beside };

    ghost words_of: { Self → List ℤ };

    /// The value that small numbers and words stand for.
    ghost said: { Beside → List ℤ → Self };

    /// The greatest number of words.
    const MOST: usize;

    ghost MOST: { ℕ };

    /// Its small numbers.
    fn brief(&self) -> Brief
        ensures { result ≡ brief_of self.now };

    /// Appends its words, for which there is room.
    fn write(&self, out: &mut Vec<i64>)
        requires { length out.old.items + MOST ≤ vec_capacity out.old }
        ensures written { out.new.items ≡ out.old.items ++ words_of self.now }
        ensures few { length (words_of self.now) ≤ MOST }
        ensures room { vec_capacity out.old ≤ vec_capacity out.new };

    /// The value that these stand for.
    fn read(brief: Brief, words: &[i64]) -> Self
        requires { length words.now ≤ MOST }
        ensures { result ≡ said brief words.now };

    ghost same: { (value : Self) → said (brief_of value) (words_of value) ≡ value };

    ghost short: { MOST < 2 ^ 8 };
}

/// A value that a map keeps as small numbers alone, so a map can give its key another one in its place.
pub trait Plain: Stored {
    ghost plain: { Self.MOST ≡ 0 };
}

// The small numbers of a value that has none.
const NONE: Brief = Brief {
    number: 0,
    half: 0,
    small: 0,
};

impl Stored for () {
    ghost brief_of = { λ _. no_brief };

    ghost words_of = { no_words };

    ghost said = { λ _ _. tt };

    const MOST: usize = 0;

    ghost MOST = { 0 };

    fn brief(&self) -> Brief {
        NONE
    }

    fn write(&self, _out: &mut Vec<i64>) {}

    fn read(_brief: Brief, _words: &[i64]) {}

    ghost same = { same_unit };

    ghost short = { Prim.omega arith };
}

impl Stored for bool {
    ghost brief_of = { bool_brief };

    ghost words_of = { no_words };

    ghost said = { bool_said };

    const MOST: usize = 0;

    ghost MOST = { 0 };

    fn brief(&self) -> Brief {
        if *self {
            Brief { small: 1, ..NONE }
        } else {
            NONE
        }
    }

    fn write(&self, _out: &mut Vec<i64>) {}

    fn read(brief: Brief, _words: &[i64]) -> bool {
        brief.small != 0
    }

    ghost same = { same_bool };

    ghost short = { Prim.omega arith };
}

// The words of an item are its value, and the key of the instance that put it.
impl Stored for (i64, Producer) {
    ghost brief_of = { item_brief };

    ghost words_of = { item_words };

    ghost said = { item_said };

    const MOST: usize = 1 + MAX_COMPONENTS;

    ghost MOST = { 5 };

    fn brief(&self) -> Brief {
        match self.1 {
            Producer::Env => NONE,
            Producer::By(inst, number) => Brief {
                number,
                half: inst.collection.0,
                small: 1,
            },
        }
    }

    fn write(&self, out: &mut Vec<i64>) {
        out.push_reserved(self.0);
        if let Producer::By(inst, _) = self.1 {
            append(out, inst.key.components());
        }
    }

    fn read(brief: Brief, words: &[i64]) -> (i64, Producer) {
        match words.split_first() {
            Some((value, components)) => (*value, producer(brief, components)),
            None => (0, producer(brief, &[])),
        }
    }

    ghost same = { same_item };

    ghost short = { Prim.omega arith };
}

// Who put an item.
fn producer(brief: Brief, components: &[i64]) -> Producer
    requires { length components.now ≤ MAX_COMPONENTS }
    ensures { result ≡ by_whom brief components.now }
{
    if brief.small == 0 {
        return Producer::Env;
    }
    let collection = StepCollection(brief.half);
    let key = Key::new(components);
    Producer::By(Inst { collection, key }, brief.number)
}

/// Appends words, for which there is room.
pub(crate) fn append(words: &mut Vec<i64>, more: &[i64])
    requires { length words.old.items + length more.now ≤ vec_capacity words.old }
    ensures items { words.new.items ≡ words.old.items ++ more.now }
    ensures room { vec_capacity words.old ≤ vec_capacity words.new }
{
    let _appended = words.extend_from_slice(more);
}
