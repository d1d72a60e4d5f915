//! A store in memory that is closed and opened again.
ghost use Rattle.std.specs.Prelude.{◌≡◌, IfOk, IfSome};
ghost use Rattle.terms.specs.Facts.{Fact};
ghost use Rattle.terms.specs.declared.key.TheConstants.{MAX_COMPONENTS};
ghost use Rattle.codec.specs.Image.{IsListed};
ghost use Rattle.codec.specs.Spelling.{SpellsImage};
ghost use Rattle.machine.specs.Machine.{facts};

use codec::{Image, encode_image, spellings_of_images};
use holdings::Holdings;
use machine::Machine;
use std::alloc::{AllocError, Global};
use std::sync::Arc;
use terms::MAX_COMPONENTS;

/// Spells what a store holds as an image, and makes a store from its bytes, as an opening does; none if the image has no spelling, or is not
/// read back. The new store has the same facts, and the instances that waited are ready.
pub(crate) fn reopened(alloc: Global, machine: &Machine) -> Result<Option<Machine>, AllocError>
    ensures { IfOk result (λ found. IfSome found (λ opened. (fact : Fact) → facts opened fact ≡ facts machine.now fact)) }
{
    machine.is_kept();
    spellings_of_images(MAX_COMPONENTS);
    let image = machine.image(alloc)?;
    let Some(bytes) = spelled(alloc, &image)? else {
        return Ok(None);
    };
    let graph = Arc::clone(machine.graph())?;
    let Some(holdings) = Holdings::of_image(alloc, &graph, &bytes)? else {
        return Ok(None);
    };
    Ok(Some(Machine::of_holdings(alloc, graph, holdings)?))
}

/// The bytes that spell an image; none if one of its lists is longer than a `u32` can count.
pub(crate) fn spelled(alloc: Global, image: &Image) -> Result<Option<Vec<u8>>, AllocError>
    requires { IsListed image.now }
    ensures { IfOk result (λ found. IfSome found (λ bytes. SpellsImage MAX_COMPONENTS bytes.items image.now)) }
{
    let longest = image
        .items
        .as_slice()
        .len()
        .max(image.tags.as_slice().len())
        .max(image.done.as_slice().len());
    if longest > u32::MAX as usize {
        return Ok(None);
    }
    let mut bytes = Vec::new(alloc);
    encode_image(&mut bytes, image)?;
    Ok(Some(bytes))
}
