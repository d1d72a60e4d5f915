ghost use Rattle.std.specs.Prelude.{◌≡◌};
ghost use Rattle.std.specs.Cmp.{IsTotalOrder};
ghost use Rattle.std.specs.FinMap.{IsAntisymmetric};
ghost use Rattle.terms.specs.Key.{key_cmp, BeginningFirst, FirstDifferenceDecides};
ghost use Rattle.terms.specs.Name.{addr_cmp, tag_cmp, inst_cmp};
ghost use Rattle.terms.specs.Put.{put_cmp, producer_cmp};

use crate::{Addr, Inst, Producer, Put, Tag};
use std::cmp::Ordering;

/// A law, with nothing to run: what decides between two keys.
pub fn key_order()
    ensures beginning { BeginningFirst }
    ensures first_difference { FirstDifferenceDecides }
{}

/// What `cmp` returns for two addresses: the collection's number decides, and then the key.
pub fn addr_order(a: &Addr, b: &Addr) -> Ordering
    ensures { result ≡ addr_cmp a.now b.now }
{
    a.cmp(b)
}

/// What `cmp` returns for two tags, by the same rule.
pub fn tag_order(a: &Tag, b: &Tag) -> Ordering
    ensures { result ≡ tag_cmp a.now b.now }
{
    a.cmp(b)
}

/// What `cmp` returns for two instances, by the same rule.
pub fn inst_order(a: &Inst, b: &Inst) -> Ordering
    ensures { result ≡ inst_cmp a.now b.now }
{
    a.cmp(b)
}

/// What `cmp` returns for two puts: an item comes before a tag; between two items the address decides, then the value.
pub fn put_order(a: &Put, b: &Put) -> Ordering
    ensures { result ≡ put_cmp a.now b.now }
{
    a.cmp(b)
}

/// What `cmp` returns for two producers: the environment comes before every instance; between instances the instance
/// decides, then the number of the put.
pub fn producer_order(a: &Producer, b: &Producer) -> Ordering
    ensures { result ≡ producer_cmp a.now b.now }
{
    a.cmp(b)
}

/// A law, with nothing to run: each of the six orders is total, and ties only at equal values.
pub fn orders_are_total()
    ensures keys { IsTotalOrder key_cmp }
    ensures keys_tie { IsAntisymmetric key_cmp }
    ensures addresses { IsTotalOrder addr_cmp }
    ensures addresses_tie { IsAntisymmetric addr_cmp }
    ensures tags { IsTotalOrder tag_cmp }
    ensures tags_tie { IsAntisymmetric tag_cmp }
    ensures instances { IsTotalOrder inst_cmp }
    ensures instances_tie { IsAntisymmetric inst_cmp }
    ensures puts { IsTotalOrder put_cmp }
    ensures puts_tie { IsAntisymmetric put_cmp }
    ensures producers { IsTotalOrder producer_cmp }
    ensures producers_tie { IsAntisymmetric producer_cmp }
{}
