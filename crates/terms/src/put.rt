ghost use Rattle.std.specs.Prelude.{◌≡◌};

use crate::{Addr, Tag};
use std::marker::Model;

/// The greatest number of puts of one instance, items and tags together.
pub const MOST_PUTS: usize = 4096;

/// What an instance puts: an item with its value, or a tag.
#[derive(Clone, Copy, Debug, PartialEq, Eq, PartialOrd, Ord)]
pub enum Put {
    Item(Addr, i64),
    Tag(Tag),
}

/// The puts of an instance, in the order in which it made them.
#[derive(Drop)]
pub struct Puts {
    puts: Vec<Put>,
}

impl Model for Puts {
    ghost use Rattle.std.specs.Prelude.{List};
    ghost use Rattle.terms.specs.declared.put.Put.{Put};

    ghost Value = { List Put };

    ghost view = { λ p. p.puts.items };
}

impl Puts {
    /// These puts. It does not allocate.
    pub fn new(puts: Vec<Put>) -> Self
        ensures { result ≡ puts.items }
    {
        Puts { puts }
    }

    /// The puts as a vector. It does not allocate.
    pub fn into_vec(self) -> Vec<Put>
        ensures { result.items ≡ self }
    {
        self.puts
    }

    /// The puts, in order.
    pub fn as_slice(&self) -> &[Put]
        ensures { result.now ≡ self.now }
    {
        &self.puts
    }
}

impl PartialEq for Puts {
    ghost use Rattle.std.specs.Cmp.Lexicographic.{pointwise, lists_per};
    ghost use Rattle.terms.specs.contracts.put.PutPartialEq.TheImpl as put_eq;
    ghost use Rattle.terms.specs.contracts.put.PutPartialEq.TheImpl.Laws as put_laws;

    ghost eq = { pointwise (put_eq.ghosts).eq };

    ghost laws = { lists_per put_laws.laws-law };

    fn eq(&self, other: &Self) -> bool {
        self.as_slice() == other.as_slice()
    }
}

impl Eq for Puts {
    ghost use Rattle.std.specs.Cmp.Lexicographic.{lists_equiv};
    ghost use Rattle.terms.specs.contracts.put.PutEq.TheImpl.Laws as put_laws;

    ghost laws = { lists_equiv put_laws.laws-law };
}
