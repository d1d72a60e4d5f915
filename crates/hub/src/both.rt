//! A hub from its opening to its close: two threads put one item each.
ghost use Rattle.std.specs.Prelude.{◌≡◌, ◌↔◌, IfErr, IfOk};
ghost use Rattle.commit.specs.Runs.{NoneRuns};
ghost use Rattle.hub.specs.declared.both.BothError.TheVariants.{TaskOut, NoMemory};
ghost use Rattle.hub.specs.Both.{BothPut, Puts};
ghost use Rattle.hub.specs.Opening.{opening_of};
ghost use Rattle.hub.specs.Whole.{IsNamedFor};

use crate::{EnvPass, Hub, hubs_cross};
use commit::{Core, CoreError};
use disk::Disk;
use passes::{Blank, Naming};
use std::alloc::Global;
use std::marker::Brand;
use std::sync::Wait;
use std::thread::{Threads, join};
use terms::Addr;
use thiserror::Error;

/// What came of two puts, with the core after them.
#[derive(Drop)]
pub struct Both<D: Disk> {
    pub core: Core<D>,
    pub one: Result<(), CoreError>,
    pub two: Result<(), CoreError>,
}

/// Why nothing was put.
#[derive(Clone, Copy, Debug, PartialEq, Eq, Error)]
pub enum BothError {
    /// Memory was refused.
    #[error("no memory")]
    NoMemory,
    /// An instance runs in the core.
    #[error("a task is out")]
    TaskOut,
}

/// Nothing was put, and the core comes back as it was.
#[derive(Drop)]
pub struct NonePut<D: Disk> {
    pub error: BothError,
    pub core: Core<D>,
}

// Puts an item, and gives the pass back with the result.
fn put_as<J: Naming, D: Disk, R: Wait>(
    rt: &R,
    hub: &Hub<J, D>,
    mut pass: EnvPass<J>,
    put: (Addr, i64),
) -> (EnvPass<J>, Result<(), CoreError>)
    ensures { Puts J.opening pass result.0 put result.1 }
{
    let answer = hub.put_item(rt, &mut pass, put.0, put.1);
    (pass, answer)
}

// Two threads put one item each into a hub that is opened for them, and closed after them.
fn put_both<J: Naming + Send + Sync, D: Disk + Drop + Send, R: Threads + Wait + Sync>(
    rt: &R,
    alloc: Global,
    core: Core<D>,
    blank: Blank,
    one: (Addr, i64),
    two: (Addr, i64),
) -> Result<Both<D>, NonePut<D>>
    requires named { IsNamedFor D.Disk J.table J.passes J.envs J.opening J.left blank core }
    requires passes { (blank.envs ≡ 2) × (blank.workers ≡ 0) }
    ensures ok { IfOk result (λ both. BothPut (opening_of D.Disk core) both.core one two both.one both.two) }
    ensures idle { IfOk result (λ both. NoneRuns both.core) }
    ensures err { IfErr result (λ none. (none.core ≡ core) × (none.error ≡ NoMemory)) }
{
    let (hub, mut envs, workers) = match Hub::<J, D>::open(alloc, core, blank) {
        Ok(opened) => opened,
        Err(not_opened) => {
            return Err(NonePut {
                error: BothError::NoMemory,
                core: not_opened.into_core(),
            });
        }
    };
    hubs_cross::<J, D>();
    let second = envs.pop().unwrap();
    let first = envs.pop().unwrap();
    let shared = &hub;
    let ((first, first_answer), (second, second_answer)) = join(
        rt,
        move || -> (EnvPass<J>, Result<(), CoreError>)
            ensures { Puts J.opening first result.0 one result.1 }
        { put_as(rt, shared, first, one) },
        move || -> (EnvPass<J>, Result<(), CoreError>)
            ensures { Puts J.opening second result.0 two result.1 }
        { put_as(rt, shared, second, two) },
    );
    envs.push_reserved(first);
    envs.push_reserved(second);
    Ok(Both {
        core: hub.close_when_idle(rt, envs, workers),
        one: first_answer,
        two: second_answer,
    })
}

/// Two threads put one item each, through a hub that is opened for them.
///
/// The store has the item of a thread whose result is `Ok`, and of no other; an error says why. `NonePut` is returned if
/// an instance runs in the core; or if none runs, and memory is refused before the threads are started.
pub fn put_two<D: Disk + Drop + Send, R: Threads + Wait + Sync>(
    rt: &R,
    alloc: Global,
    core: Core<D>,
    one: (Addr, i64),
    two: (Addr, i64),
) -> Result<Both<D>, NonePut<D>>
    ensures ok { IfOk result (λ both. BothPut (opening_of D.Disk core) both.core one two both.one both.two) }
    ensures idle { IfOk result (λ both. NoneRuns both.core × NoneRuns core) }
    ensures err { IfErr result (λ none. none.core ≡ core) }
    ensures cause { IfErr result (λ none. (none.error ≡ TaskOut) ↔ (NoneRuns core → ⊥)) }
{
    if core.running() != 0 {
        return Err(NonePut {
            error: BothError::TaskOut,
            core,
        });
    }
    let Ok(blank) = Blank::new(alloc, 2, 0) else {
        return Err(NonePut {
            error: BothError::NoMemory,
            core,
        });
    };
    put_both::<Brand, D, R>(rt, alloc, core, blank, one, two)
}
