ghost use Rattle.std.specs.Prelude.{◌≡◌, ◌↔◌, false, true, Err, IfErr, OnOk};
ghost use Rattle.commit.specs.Status.{IsGenuine};
ghost use Rattle.machine.specs.Machine.{environment, facts};
ghost use Rattle.machine.specs.State.{IsReached};
ghost use Rattle.commit.specs.Core as core_of;
ghost use Rattle.audit.specs.declared.certificate.VerifyError.TheVariants.{Halted, NoMemory};
ghost use Rattle.audit.specs.Replayed.{AreStuck, IsReplayed};

use crate::begin::begin;
use crate::fault::is_at_fault;
use crate::replay::replay;
use commit::Core;
use disk::Disk;
use machine::{Machine, Marks, reached_goes_on};
use std::alloc::{AllocError, Global};
use std::sync::Arc;
use steptree::ends_once;
use terms::{Addr, Inst, Tag, facts_are_told_apart};

/// Why a store is not certified. The first of these that holds is reported.
#[derive(Clone, Copy, Debug, PartialEq, Eq)]
pub enum VerifyError {
    /// This instance is done, and its body does not give what the store says that it put; or it reads an item that was not replayed. It is the first of those, by step and then by key. If
    /// there is none, and all else was replayed, it is the instance at fault, whose body is not at fault so.
    Instance(Inst),
    /// The producer of the item at this address did not put it. It is the first of those.
    Item(Addr),
    /// No instance that was replayed puts this tag, and neither did the environment. It is the first of those.
    Tag(Tag),
    /// Memory was refused.
    NoMemory,
    /// The core is halted.
    Halted,
}

impl From<AllocError> for VerifyError {
    ghost from_gives = { λ _ error. error ≡ NoMemory };

    fn from(_: AllocError) -> Self {
        VerifyError::NoMemory
    }
}

/// Whoever is told how far a certificate has come.
pub trait Progress {
    /// One more of the instances that are done was replayed.
    fn replayed(&mut self);
}

/// Nobody is told.
impl Progress for () {
    fn replayed(&mut self) {}
}

/// Whether what a store holds is what its graph's steps can have come to: `Ok` exactly if some legal events lead there, unless memory is refused. It trusts no mark of the store:
/// it runs the body of each instance that is done there to its end, or, where an item was not replayed so far, up to that item and then anew.
pub fn verify<D: Disk, P: Progress>(
    alloc: Global,
    core: &Core<D>,
    progress: &mut P,
) -> Result<(), VerifyError>
    ensures certified { OnOk result (IsGenuine core.now) }
    ensures genuine { core_of.is_halted core.now ≡ false → IsGenuine core.now → IfErr result (λ why. why ≡ NoMemory) }
    ensures halted { (result ≡ Err Halted) ↔ (core_of.is_halted core.now ≡ true) }
{
    if core.status().is_err() {
        return Err(VerifyError::Halted);
    }
    certify(alloc, core.machine(), progress)
}

// The same for what a store holds in memory.
fn certify<P: Progress>(alloc: Global, store: &Machine, progress: &mut P) -> Result<(), VerifyError>
    ensures certified { OnOk result (IsReached store.now.graph (environment store.now) (facts store.now)) }
    ensures genuine { IsReached store.now.graph (environment store.now) (facts store.now) → IfErr result (λ why. why ≡ NoMemory) }
    ensures working { result ≡ Err Halted → ⊥ }
{
    let mut marks = store.marks(alloc)?;
    begin(store, &mut marks);
    replay(alloc, store, &mut marks, progress)?;
    compare(alloc, store, &marks)
}

// Tells the first of a store that was not replayed, or its fault if that cannot come.
fn compare(alloc: Global, store: &Machine, marks: &Marks<'_>) -> Result<(), VerifyError>
    requires replayed { IsReplayed store.now marks.now }
    requires stuck { AreStuck store.now marks.now }
    ensures certified { OnOk result (IsReached store.now.graph (environment store.now) (facts store.now)) }
    ensures genuine { IsReached store.now.graph (environment store.now) (facts store.now) → IfErr result (λ why. why ≡ NoMemory) }
    ensures working { result ≡ Err Halted → ⊥ }
{
    facts_are_told_apart();
    reached_goes_on();
    ends_once();
    store.is_kept();
    if let Some(inst) = marks.first_done_left() {
        return Err(VerifyError::Instance(inst));
    }
    if let Some(addr) = marks.first_item_left() {
        return Err(VerifyError::Item(addr));
    }
    if let Some(tag) = marks.first_tag_left() {
        return Err(VerifyError::Tag(tag));
    }
    let Some((inst, kind)) = store.fault() else {
        return Ok(());
    };
    let graph = Arc::clone(store.graph())?;
    let at_fault = inst;
    if is_at_fault(alloc, store, &graph, marks, at_fault, kind)? {
        Ok(())
    } else {
        Err(VerifyError::Instance(inst))
    }
}
