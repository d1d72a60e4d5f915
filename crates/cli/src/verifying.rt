//! The certificate of a store, and what is wrong in a store that has none.
ghost use Rattle.std.specs.Prelude.{◌≡◌, ◌⊎◌, false, codes, IfErr, OnOk};
ghost use Rattle.commit.specs.Core.{is_halted};
ghost use Rattle.audit.specs.declared.certificate.VerifyError.TheVariants.{NoMemory};
ghost use Rattle.commit.specs.Status.{IsGenuine};
ghost use Rattle.cli.specs.Obeyed.{IsNotOpened, SaysOrFails, TellsCertificate, Verifies};
ghost use Rattle.cli.specs.declared.outcome.Outcome.TheVariants.{Verified};

use crate::{Errors, Failure, Outcome};
use audit::{Progress, VerifyError};
use commit::{Came, Core, Outcome as End, run_body};
use disk::Disk;
use graph::Graph;
use report::{NamedAddress, NamedInstance, NamedTag};
use std::alloc::Global;
use std::io::{self, Write};
use terms::{Addr, Inst, Producer, Put, Tag};
use vault::{Refused, VaultError};

// Tells the error output how far the certificate has come.
#[derive(Drop)]
struct Telling<'e, E: Errors> {
    err: &'e mut E,
    done: u64,
}

impl<'e, E: Errors> Progress for Telling<'e, E> {
    fn replayed(&mut self) {
        self.err.verified_one(self.done);
    }
}

/// Looks whether what a store holds is what its steps can have come to.
pub(crate) fn verify<D: Disk, W: Write, E: Errors>(
    alloc: Global,
    disk: D,
    out: &mut W,
    err: &mut E,
) -> (D, Outcome)
    ensures { IsNotOpened D.Disk (W.contents out.old) (W.contents out.new) disk result.0 result.1
        ⊎ Verifies D.Disk (W.contents out.old) (W.contents out.new) disk result.0 result.1 }
{
    match Core::open(alloc, disk) {
        Ok(core) => {
            let answer = verified_by(alloc, &core, err);
            let outcome = certified(alloc, &core, answer, out, err);
            (core.into_disk(), outcome)
        }
        Err(refused) => {
            let Refused { disk, error } = refused;
            (disk, Outcome::Failed(Failure::Store(error)))
        }
    }
}

// The certificate, while the error output is told how far it has come.
fn verified_by<D: Disk, E: Errors>(
    alloc: Global,
    core: &Core<D>,
    err: &mut E,
) -> Result<(), VerifyError>
    ensures certified { OnOk result (IsGenuine core.now) }
    ensures genuine { is_halted core.now ≡ false → IsGenuine core.now → IfErr result (λ why. why ≡ NoMemory) }
{
    let done = core.counts().done as u64;
    audit::verify(alloc, core, &mut Telling { err, done })
}

// What a certificate came to. If it is refused, the error output says at which place, and to a person what is wrong there.
fn certified<D: Disk, W: Write, E: Errors>(
    alloc: Global,
    core: &Core<D>,
    answer: Result<(), VerifyError>,
    out: &mut W,
    err: &mut E,
) -> Outcome
    ensures { TellsCertificate (W.contents out.old) (W.contents out.new) answer result }
{
    // Where one of these lines cannot be written, the status still says it.
    match answer {
        Ok(()) => verified(out),
        Err(VerifyError::Instance(inst)) => {
            let _ = tell_instance(alloc, core, inst, err);
            Outcome::NotVerified
        }
        Err(VerifyError::Item(addr)) => {
            let _ = tell_item(core.graph(), addr, err);
            Outcome::NotVerified
        }
        Err(VerifyError::Tag(tag)) => {
            let _ = tell_tag(core.graph(), &tag, err);
            Outcome::NotVerified
        }
        Err(VerifyError::NoMemory) => Outcome::Failed(Failure::NoMemory),
        Err(VerifyError::Halted) => Outcome::Failed(Failure::Store(VaultError::Halted)),
    }
}

// Says that a store is verified.
fn verified<W: Write>(out: &mut W) -> Outcome
    ensures { SaysOrFails (W.contents out.old) (W.contents out.new) (codes "verified") Verified result }
{
    match writeln!(out, "verified") {
        Ok(()) => Outcome::Verified,
        Err(_) => Outcome::Failed(Failure::Output),
    }
}

// Says that a store is not verified at an instance.
fn tell_instance<D: Disk, E: Errors>(
    alloc: Global,
    core: &Core<D>,
    instance: Inst,
    err: &mut E,
) -> io::Result<()> {
    let graph = core.graph();
    let inst = instance;
    let named = NamedInstance { graph, instance };
    writeln!(err, "not verified at {named}")?;
    if err.explains() {
        explain_instance(alloc, core, inst, err)?;
    }
    Ok(())
}

// Says that a store is not verified at an item.
fn tell_item<E: Errors>(graph: &Graph, address: Addr, err: &mut E) -> io::Result<()> {
    let named = NamedAddress { graph, address };
    writeln!(err, "not verified at {named}")?;
    if err.explains() {
        writeln!(err, "  No instance that was verified puts it so.")?;
    }
    Ok(())
}

// Says that a store is not verified at a tag.
fn tell_tag<E: Errors>(graph: &Graph, tag: &Tag, err: &mut E) -> io::Result<()> {
    let tag = *tag;
    let named = NamedTag { graph, tag };
    writeln!(err, "not verified at {named}")?;
    if err.explains() {
        writeln!(
            err,
            "  The environment did not put it, and no instance that was verified did."
        )?;
    }
    Ok(())
}

// Says what is wrong at an instance: what its body comes to over all that the store has, and what the store says that it came to.
fn explain_instance<D: Disk, E: Errors>(
    alloc: Global,
    core: &Core<D>,
    inst: Inst,
    err: &mut E,
) -> io::Result<()> {
    let machine = core.machine();
    let name = inst;
    if !machine.is_done(name) {
        return writeln!(
            err,
            "  The store says that it ended in a fault, and its body does not."
        );
    }
    let instance = inst;
    match run_body(alloc, machine, core.graph(), instance) {
        Ok(Came::Ended(End::Gave(given))) => {
            explain_puts(core, inst, given.puts().as_slice(), err)
        }
        Ok(Came::Ended(End::Fault(bad))) => {
            drop(bad);
            writeln!(
                err,
                "  The store says that it is done, and its body ends in a fault."
            )
        }
        Ok(Came::Waits(parked)) => {
            let graph = core.graph();
            let address = parked.address();
            let named = NamedAddress { graph, address };
            writeln!(
                err,
                "  The store says that it is done, and its body waits for {named}."
            )
        }
        // There is no memory to look at it.
        Err(_) => Ok(()),
    }
}

// Says which of the puts of an instance the store does not have.
fn explain_puts<D: Disk, E: Errors>(
    core: &Core<D>,
    inst: Inst,
    puts: &[Put],
    err: &mut E,
) -> io::Result<()> {
    for number in 0..puts.len() {
        let instance = inst;
        let number_of_put = u32::try_from(number).unwrap_or(u32::MAX);
        let by = Producer::By(instance, number_of_put);
        if explain_put(core, by, &puts[number], err)? {
            return Ok(());
        }
    }
    writeln!(
        err,
        "  The store has what its body puts, but what it reads is not verified, or it puts an item twice."
    )
}

// Says what the store has in place of a put. Says whether it has something else.
fn explain_put<D: Disk, E: Errors>(
    core: &Core<D>,
    by: Producer,
    put: &Put,
    err: &mut E,
) -> io::Result<bool> {
    match put {
        Put::Item(addr, value) => explain_item(core, by, *addr, *value, err),
        Put::Tag(tag) => {
            if core.machine().mark(*tag).is_some() {
                return Ok(false);
            }
            let graph = core.graph();
            let tag = *tag;
            let named = NamedTag { graph, tag };
            writeln!(
                err,
                "  Its body puts {named}, which the store does not have."
            )?;
            Ok(true)
        }
    }
}

// The same for an item.
fn explain_item<D: Disk, E: Errors>(
    core: &Core<D>,
    by: Producer,
    address: Addr,
    value: i64,
    err: &mut E,
) -> io::Result<bool> {
    let graph = core.graph();
    let place = address;
    let named = NamedAddress { graph, address };
    match core.machine().item(place) {
        None => writeln!(
            err,
            "  Its body puts {named} = {value}, which the store does not have."
        )?,
        Some((other, _)) if other != value => writeln!(
            err,
            "  Its body puts {named} = {value}, and the store has {other} there."
        )?,
        Some((_, producer)) if producer != by => writeln!(
            err,
            "  Its body puts {named} = {value}, and the store says that this was put otherwise."
        )?,
        Some(_) => return Ok(false),
    }
    Ok(true)
}
