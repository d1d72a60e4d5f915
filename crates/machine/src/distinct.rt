ghost use Rattle.std.specs.Prelude.{◌≡◌, ◌+◌, ◌≤◌, ◌++◌, length, vec_capacity, OnOk};
ghost use Rattle.machine.specs.Together.{TellsDistinct};
ghost use Rattle.std.specs.List.{AllByRecursion};
ghost use Rattle.std.specs.List.Sorted.{IsSorted};
ghost use Rattle.terms.specs.Name.{addr_cmp};
ghost use Rattle.graph.specs.Fits.{addresses as addresses_of};
ghost use Rattle.machine.specs.Group.{IsDone, puts_of_all};

use crate::group::puts_of;
use std::alloc::AllocError;
use terms::{Addr, Event, Put, addr_order};

/// Adds the addresses of the items of these puts. It allocates no memory: there is room for them.
fn gather(addresses: &mut Vec<Addr>, puts: &[Put])
    requires { length addresses.old.items + length puts.now ≤ vec_capacity addresses.old }
    ensures gathered { addresses.new.items ≡ addresses.old.items ++ addresses_of puts.now }
    ensures capacity { vec_capacity addresses.new ≡ vec_capacity addresses.old }
{
    for put in puts {
        if let Put::Item(address, _) = put {
            addresses.push_reserved(*address);
        }
    }
}

/// Replaces `addresses` by the addresses of the items of all these ends of instances that are done. It allocates memory only
/// where the room for the addresses of one of them is missing.
pub(crate) fn gather_all(addresses: &mut Vec<Addr>, ends: &[Event]) -> Result<(), AllocError>
    requires { AllByRecursion IsDone ends.now }
    ensures gathered { OnOk result (addresses.new.items ≡ addresses_of (puts_of_all ends.now)) }
    ensures capacity { vec_capacity addresses.old ≤ vec_capacity addresses.new }
{
    addresses.clear();
    for number in 0..ends.len() {
        let puts = puts_of(&ends[number]);
        addresses.reserve(puts.len())?;
        gather(addresses, puts);
    }
    Ok(())
}

/// Whether no address of a sorted list equals the one before it, so that no address is there twice.
fn neighbours_differ(addresses: &[Addr]) -> bool
    requires { IsSorted addr_cmp addresses.now }
    ensures { TellsDistinct addresses.now result }
{
    for later in 1..addresses.len() {
        if addr_order(&addresses[later - 1], &addresses[later]).is_eq() {
            return false;
        }
    }
    true
}

/// Whether no address is there twice. It sorts the addresses, and allocates no memory.
pub(crate) fn all_differ(addresses: &mut Vec<Addr>) -> bool
    ensures distinct { TellsDistinct addresses.old.items result }
    ensures capacity { vec_capacity addresses.new ≡ vec_capacity addresses.old }
{
    addresses.sort_unstable();
    neighbours_differ(addresses)
}

/// Whether no two items of these puts are at one address. It allocates no memory: there is room for their addresses.
pub(crate) fn are_distinct(addresses: &mut Vec<Addr>, puts: &[Put]) -> bool
    requires { length puts.now ≤ vec_capacity addresses.old }
    ensures distinct { TellsDistinct (addresses_of puts.now) result }
    ensures capacity { vec_capacity addresses.new ≡ vec_capacity addresses.old }
{
    addresses.clear();
    gather(addresses, puts);
    all_differ(addresses)
}
