//! A store on the files of the folder that this runs in. If there is none, it tries the calls of a disk on two other
//! files, and then makes a store, fills it, turns it over and opens it again. When it is started again, it prints what
//! the store holds.
#![tactic(auto)]

ghost use Rattle.std.specs.Prelude.{IfOk};
ghost use Rattle.std.specs.List.{AllByRecursion};
ghost use Rattle.codec.specs.Image.{IsListed};
ghost use Rattle.codec.specs.Spelling.{HasPutNumber};
ghost use Rattle.holdings.specs.Holdings.{image_of};

mod files;
mod filling;

use anyhow::Error;
use codec::{Image, ImageBytes, encode_image};
use disk::FileDisk;
use files::tell_calls;
use filling::{fill, make};
use std::alloc::Global;
use std::io::Print;
use vault::{Recovered, VaultError, open};

fn main(rt: HostRuntime) -> Result<(), Error> {
    let disk = FileDisk::open(rt.alloc(), &rt, ".")?;
    match open(rt.alloc(), disk) {
        Ok(recovered) => tell(&rt, &recovered),
        Err(refused) if refused.error == VaultError::NotAStore => {
            tell_calls(&rt)?;
            let mut vault = make(rt.alloc(), refused.disk)?;
            println!(rt; "made")?;
            fill(rt.alloc(), &mut vault)?;
            drop(vault);
            turn_over(&rt)?;
            let recovered = opened(&rt)?;
            tell(&rt, &recovered)
        }
        Err(refused) => Err(refused.error.into()),
    }
}

// The store on the files, opened.
fn opened(rt: &HostRuntime) -> Result<Recovered<FileDisk>, Error>
    ensures { IfOk result (λ recovered. AllByRecursion HasPutNumber (image_of recovered.holdings).items) }
{
    let disk = FileDisk::open(rt.alloc(), rt, ".")?;
    match open(rt.alloc(), disk) {
        Ok(recovered) => Ok(recovered),
        Err(refused) => Err(refused.error.into()),
    }
}

// Opens the store, and turns it over.
fn turn_over(rt: &HostRuntime) -> Result<(), Error> {
    let Recovered {
        mut vault,
        graph: _,
        holdings,
    } = opened(rt)?;
    let bytes = spelled(rt.alloc(), &holdings.image(rt.alloc())?)?;
    let generation = vault.turn_by(ImageBytes::new(&bytes), &mut [0; 4096])?;
    println!(rt; "turned, generation {generation}")?;
    Ok(())
}

// The bytes that spell an image.
fn spelled(alloc: Global, image: &Image) -> Result<Vec<u8>, Error>
    requires { IsListed image.now }
{
    let longest = image
        .items
        .as_slice()
        .len()
        .max(image.tags.as_slice().len())
        .max(image.done.as_slice().len());
    if longest > u32::MAX as usize {
        return Err(VaultError::Full.into());
    }
    let mut bytes = Vec::new(alloc);
    encode_image(&mut bytes, image)?;
    Ok(bytes)
}

// Prints what the store holds, in the order of its names.
fn tell(rt: &HostRuntime, store: &Recovered<FileDisk>) -> Result<(), Error> {
    println!(rt; "opened, generation {}", store.vault.generation())?;
    for (address, (value, _)) in store.holdings.items() {
        println!(rt;
            "item {} {:?} = {value}",
            address.collection.0,
            address.key.components()
        )?;
    }
    for ((number, key), mark) in store.holdings.tags() {
        println!(rt;
            "tag {number} {:?}, of the environment: {mark}",
            key.components()
        )?;
    }
    for ((number, key), ()) in store.holdings.done() {
        println!(rt; "done {number} {:?}", key.components())?;
    }
    Ok(())
}
