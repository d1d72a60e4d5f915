ghost use Rattle.std.specs.Prelude.{IfOk, IfErr, IsErrOf};
ghost use Rattle.sides.specs.Reading.{IsRead};
ghost use Rattle.sides.specs.Side.{IsNoSide};
ghost use Rattle.vault.specs.Store.{SaysNothing, IsDamageOf};
ghost use Rattle.vault.specs.Opened.{IsFoundIn, IsOfOpening, IsSoundFound, IfHasGeneration};
ghost use Rattle.vault.specs.declared.error.VaultError.TheVariants.{Device};

use crate::VaultError;
use disk::Side;
use graph::Graph;
use holdings::Holdings;
use journal::Journal;
use sides::{Gate, SideError, Standing, gate_of, one_item_each, read_side, sides_go_on};
use std::alloc::Global;

// What was read from the bytes of a side, and these bytes.
#[derive(Drop)]
pub(crate) struct Found {
    pub(crate) bytes: Vec<u8>,
    // The position where the journal begins.
    pub(crate) start: u64,
    pub(crate) journal: Journal,
    pub(crate) generation: u64,
    pub(crate) text: Vec<u8>,
    pub(crate) graph: Graph,
    pub(crate) holdings: Holdings,
}

// Reads the bytes of a side.
pub(crate) fn found_in(alloc: Global, side: Side, bytes: Vec<u8>) -> Result<Found, VaultError>
    ensures found { IfOk result (IsFoundIn side bytes.items) }
    ensures kept { IfOk result (λ found. IsFoundIn found.journal.side found.bytes.items found) }
    ensures sound { IfOk result IsSoundFound }
    ensures nothing { IfHasGeneration bytes.items (IfErr result (λ error. SaysNothing error → IsNoSide bytes.items)) }
    ensures cause { IfHasGeneration bytes.items (IfErr result (λ error. SaysNothing error → IsDamageOf side error)) }
    ensures others { IfErr result IsOfOpening }
    ensures device { IsErrOf result Device → ⊥ }
{
    // The head of the file was open before: a disk that gives another one now is not honest.
    let Gate::Open(generation) = gate_of(&bytes) else {
        return Err(VaultError::NotAStore);
    };
    match read_side(alloc, &bytes) {
        Ok(standing) => Ok(found_of(alloc, side, generation, standing, bytes)),
        Err(SideError::Damaged(place)) => Err(VaultError::Damaged(side, place)),
        Err(SideError::NoMemory) => Err(VaultError::NoMemory),
    }
}

// What was read from a side of this generation.
fn found_of(alloc: Global, side: Side, generation: u64, standing: Standing, bytes: Vec<u8>) -> Found
    ensures found { IsRead bytes.items generation standing → IsFoundIn side bytes.items result }
    ensures kept { IsRead bytes.items generation standing → IsFoundIn result.journal.side result.bytes.items result }
    ensures sound { IsRead bytes.items generation standing → IsSoundFound result }
{
    sides_go_on();
    one_item_each();
    let Standing {
        graph,
        text,
        holdings,
        start,
        end,
    } = standing;
    Found {
        bytes,
        start,
        journal: Journal { side, end },
        generation,
        text,
        graph,
        holdings,
    }
}
