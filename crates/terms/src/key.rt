ghost use Rattle.std.specs.Prelude.{◌≡◌, ℤ, ◌≤◌, List, length, take};
ghost use Rattle.std.specs.Ordering.{int_cmp, int_eq, as_partial_cmp};
ghost use Rattle.std.specs.Cmp.{int_cmp_total, int_eq_equiv, partial_equiv_from_equiv, po};
ghost use Rattle.std.specs.Cmp.Lexicographic.{pointwise, lists_equiv, lists_per, lists_ties, lists_total};
ghost use Rattle.std.proofs.Common.{refl, sym, length-take-le};
ghost use Rattle.terms.specs.declared.key.TheConstants.{MAX_COMPONENTS};
ghost use Rattle.terms.specs.Key.{key_cmp, padded};

use std::cmp::Ordering;
use std::marker::Model;

/// The greatest number of components of a key.
pub const MAX_COMPONENTS: usize = 4;

/// The name of an item, a tag or an instance within its collection: 0 to `MAX_COMPONENTS` whole numbers.
///
/// Keys are ordered component by component, and a key comes before every longer key that it is a prefix of.
#[derive(Clone, Copy, Debug)]
pub struct Key {
    components: [i64; MAX_COMPONENTS],
    count: usize,
}

impl Model for Key {
    ghost Value = { List ℤ };

    ghost view = { λ k. take k.count k.components };

    // The places after the first `count` hold zeros, so that a list of components has one key.
    ghost invariant = { λ k. (k.count ≤ length k.components) × (k.components ≡ padded (take k.count k.components)) };

    ghost inverse = { λ components. record { components = padded components; count = length components } };

    ghost inverse_ok = { λ k whole. λ i. record { components = sym whole.1 i; count = length-take-le k.count k.components whole.0 i } };
}

impl Key {
    /// The key with these components. Check a list that comes from outside against `MAX_COMPONENTS` first.
    pub fn new(components: &[i64]) -> Self
        requires { length components.now ≤ MAX_COMPONENTS }
        ensures { result ≡ components.now }
    {
        let places = match *components {
            [] => [0, 0, 0, 0],
            [one] => [one, 0, 0, 0],
            [one, two] => [one, two, 0, 0],
            [one, two, three] => [one, two, three, 0],
            [one, two, three, four, ..] => [one, two, three, four],
        };
        Key {
            components: places,
            count: components.len(),
        }
    }

    /// Its components, in order.
    pub fn components(&self) -> &[i64]
        ensures components { result.now ≡ self.now }
        ensures few { length result.now ≤ MAX_COMPONENTS }
    {
        &self.components[..self.count]
    }
}

impl PartialEq for Key {
    ghost eq = { pointwise int_eq };

    ghost laws = { lists_per (partial_equiv_from_equiv int_eq_equiv) };

    fn eq(&self, other: &Self) -> bool {
        self.components() == other.components()
    }
}

impl Eq for Key {
    ghost laws = { lists_equiv int_eq_equiv };
}

impl PartialOrd for Key {
    ghost partial_cmp = { as_partial_cmp key_cmp };

    ghost laws = { po (lists_total int_cmp_total) (lists_ties int_cmp (λ x y. refl)) };

    fn partial_cmp(&self, other: &Self) -> Option<Ordering> {
        Some(self.cmp(other))
    }
}

impl Ord for Key {
    ghost cmp = { key_cmp };

    ghost total = { lists_total int_cmp_total };

    ghost matches_partial_cmp = { λ x y. refl };

    ghost matches_eq = { lists_ties int_cmp (λ x y. refl) };

    fn cmp(&self, other: &Self) -> Ordering {
        self.components().cmp(other.components())
    }
}
