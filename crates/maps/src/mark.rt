ghost use Rattle.std.specs.Prelude.{◌≡◌, ◌+◌, ◌<◌, ◌≤◌, ◌^◌, ◌++◌, ℤ, List, length};
ghost use Rattle.std.specs.Vec.{vec_capacity};
ghost use Rattle.terms.specs.declared.key.TheConstants.{MAX_COMPONENTS};
ghost use Rattle.maps.specs.Marks.{IsWithin, entry_of, key_of, said_of};
ghost use Rattle.maps.specs.Stored.{first_word, other_words};

use crate::stored::append;
use crate::{Brief, Stored};
use terms::Key;

/// An entry of a page: the first component of its key, the small numbers of its value, and where the words of the entry are among those
/// of the map. These are the other components of its key, and then those of its value.
#[derive(Clone, Copy)]
pub(crate) struct Mark {
    pub(crate) first: i64,
    pub(crate) at: u32,
    pub(crate) brief: Brief,
    pub(crate) components: u8,
    pub(crate) words: u8,
}

impl Mark {
    /// The key of the entry.
    pub(crate) fn key<V: Stored>(&self, words: &[i64]) -> Key
        requires { IsWithin V.MOST words.now self.now }
        ensures { result ≡ key_of words.now self.now }
    {
        if self.components == 0 {
            return Key::new(&[]);
        }
        let at = self.at as usize;
        let others = &words[at..at + (self.components as usize - 1)];
        match *others {
            [] => Key::new(&[self.first]),
            [second] => Key::new(&[self.first, second]),
            [second, third] => Key::new(&[self.first, second, third]),
            [second, third, fourth, ..] => Key::new(&[self.first, second, third, fourth]),
        }
    }

    /// The value of the entry.
    pub(crate) fn value<V: Stored>(&self, words: &[i64]) -> V
        requires { IsWithin V.MOST words.now self.now }
        ensures { result ≡ said_of V.said words.now self.now }
    {
        let at = self.at as usize + (self.components as usize).saturating_sub(1);
        V::read(self.brief, &words[at..at + self.words as usize])
    }
}

/// Appends the words of an entry, for which there is room.
pub(crate) fn spell<V: Stored>(words: &mut Vec<i64>, key: &Key, value: &V) -> Mark
    requires room { length words.old.items + (MAX_COMPONENTS + V.MOST) ≤ vec_capacity words.old }
    requires few { length words.old.items < 2 ^ 32 }
    ensures added { (more : List ℤ) × (words.new.items ≡ words.old.items ++ more) × (length more ≤ MAX_COMPONENTS + V.MOST) }
    ensures room { vec_capacity words.old ≤ vec_capacity words.new }
    ensures entry { entry_of V.said words.new.items result ≡ (key.now, value.now) }
    ensures within { IsWithin V.MOST words.new.items result }
{
    let at = words.len() as u32;
    let first = spell_key(words, key);
    let count = words.len();
    value.write(words);
    Mark {
        first,
        at,
        brief: value.brief(),
        components: key.components().len() as u8,
        words: (words.len() - count) as u8,
    }
}

// Appends the components of a key but the first, which it returns; 0 if there is none.
fn spell_key(words: &mut Vec<i64>, key: &Key) -> i64
    requires { length words.old.items + MAX_COMPONENTS ≤ vec_capacity words.old }
    ensures first { result ≡ first_word key.now }
    ensures others { words.new.items ≡ words.old.items ++ other_words key.now }
    ensures few { length key.now ≤ MAX_COMPONENTS }
    ensures room { vec_capacity words.old ≤ vec_capacity words.new }
{
    match key.components().split_first() {
        Some((first, others)) => {
            append(words, others);
            *first
        }
        None => 0,
    }
}
