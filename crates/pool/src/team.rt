//! A hub for workers, from its opening to its close.
ghost use Rattle.std.specs.Prelude.{◌≡◌, ◌↔◌, ◌⊎◌, ◌+◌, ◌≤◌, Some, true, false, IfOk, vec_capacity, vec_len};
ghost use Rattle.commit.specs.Core.{is_halted};
ghost use Rattle.commit.specs.Runs.{NoneRuns};
ghost use Rattle.hub.specs.Whole.{IsNamedFor};
ghost use Rattle.pool.specs.declared.worker.Met.TheVariants.{Asked as MetAsked, Full as MetFull, NoMemory};
ghost use Rattle.pool.specs.Worked.{OneSawFull, WorksOn, HasRoomForAll, AreTrueCauses};

use crate::Probe;
use crate::shelf::Shelf;
use crate::worker::{AsProbed, Ended, Met, work};
use commit::Core;
use deques::{Deque, Thief};
use disk::Disk;
use hub::{Hub, WorkPass, hubs_cross};
use passes::{Blank, Naming};
use std::alloc::{AllocError, Global};
use std::marker::PhantomData;
use std::sync::Wait;
use std::thread::{PromisedHandle, Scope, Threads, scope, scope_env};
use vault::stores_go_on;

/// What kept the workers from their work.
#[derive(Clone, Copy, Debug, PartialEq, Eq)]
pub(crate) struct Causes {
    /// A thread could not be started.
    pub(crate) no_thread: bool,
    /// Memory was refused.
    pub(crate) no_memory: bool,
    /// A record did not fit.
    pub(crate) full: bool,
    /// The probe answered `Stop`.
    pub(crate) asked: bool,
}

impl Causes {
    // Memory was refused.
    pub(crate) fn memory() -> Causes
        ensures { (result.no_thread ≡ false) × (result.no_memory ≡ true) × (result.full ≡ false) × (result.asked ≡ false) }
    {
        Causes {
            no_thread: false,
            no_memory: true,
            full: false,
            asked: false,
        }
    }

    // Whether a thread could not be started.
    fn of_start(no_thread: bool) -> Causes
        ensures { (result.no_thread ≡ no_thread) × (result.no_memory ≡ false) × (result.full ≡ false) × (result.asked ≡ false) }
    {
        Causes {
            no_thread,
            no_memory: false,
            full: false,
            asked: false,
        }
    }

    // These causes, and what one more worker met.
    fn also(self, met: Option<Met>) -> Causes
        ensures thread { result.no_thread ≡ self.no_thread }
        ensures memory { (result.no_memory ≡ true) ↔ ((self.no_memory ≡ true) ⊎ (met ≡ Some NoMemory)) }
        ensures full { (result.full ≡ true) ↔ ((self.full ≡ true) ⊎ (met ≡ Some MetFull)) }
        ensures asked { (result.asked ≡ true) ↔ ((self.asked ≡ true) ⊎ (met ≡ Some MetAsked)) }
    {
        match met {
            Some(Met::Asked) => Causes {
                asked: true,
                ..self
            },
            Some(Met::NoMemory) => Causes {
                no_memory: true,
                ..self
            },
            Some(Met::Full) => Causes { full: true, ..self },
            Some(Met::Other) | None => self,
        }
    }
}

// The passes of a hub's workers, and what they met.
#[derive(Drop)]
struct Back<J: Naming> {
    passes: Vec<WorkPass<J>>,
    causes: Causes,
}

// What the workers are given: to each a pass and a deque, and to all of them handles on all deques.
#[derive(Drop)]
struct CrewOf<'x, J: Naming> {
    workers: Vec<WorkPass<J>>,
    deques: Vec<Deque>,
    thieves: &'x [Thief],
    ghost paired: { vec_len deques ≡ vec_len workers },
}

// The threads that were started; and the passes of those that were not started, and of the thread that started them.
struct Started<J: Naming, P: Probe> {
    handles: Vec<PromisedHandle<Ended<J>, AsProbed<P>>>,
    passes: Vec<WorkPass<J>>,
    no_thread: bool,
}

/// Runs the steps of a core on a worker for each pass of the blank but one, which the calling thread keeps. It returns
/// the core and what the workers met. If memory is refused before the first thread, the core is unchanged.
pub(crate) fn run_team<
    J: Naming + Send + Sync,
    D: Disk + Send,
    P: Probe + Sync,
    R: Threads + Wait + Sync,
>(rt: &R, alloc: Global, core: Core<D>, blank: Blank, workers: u8, probe: &P) -> (Core<D>, Causes)
    requires named { IsNamedFor D.Disk J.table J.passes J.envs J.opening J.left blank core }
    requires passes { (blank.envs ≡ 0) × (blank.workers ≡ workers + 1) }
    requires working { is_halted core ≡ false }
    requires idle { NoneRuns core }
    ensures works { WorksOn D.Disk core result.0 result.1.full }
    ensures idle { NoneRuns result.0 }
    ensures asked { result.1.asked ≡ true → P.may_stop ≡ true }
{
    stores_go_on::<D>();
    core.is_kept();
    let mut handles = Vec::new(alloc);
    let mut passes = Vec::new(alloc);
    let Ok(()) = handles.reserve(workers as usize) else {
        return (core, Causes::memory());
    };
    let Ok(()) = passes.reserve(workers as usize + 1) else {
        return (core, Causes::memory());
    };
    let Ok((deques, thieves)) = deques_for(alloc, workers) else {
        return (core, Causes::memory());
    };
    let (hub, envs, mut work_passes) = match Hub::<J, D>::open(alloc, core, blank) {
        Ok(opened) => opened,
        Err(not_opened) => return (not_opened.into_core(), Causes::memory()),
    };
    let boss = work_passes.pop().unwrap();
    let crew = CrewOf {
        workers: work_passes,
        deques,
        thieves: thieves.as_slice(),
    };
    let back = in_threads(rt, alloc, &hub, probe, boss, crew, handles, passes);
    let core = hub.close_when_idle(rt, envs, back.passes);
    (core, back.causes)
}

// An empty deque for each worker, and a handle on each, from which the others steal.
fn deques_for(alloc: Global, workers: u8) -> Result<(Vec<Deque>, Vec<Thief>), AllocError>
    ensures { IfOk result (λ both. vec_len both.0 ≡ workers) }
{
    let mut deques = Vec::new(alloc);
    let mut thieves = Vec::new(alloc);
    for _ in 0..workers {
        let deque = Deque::new(alloc)?;
        thieves.push(deque.thief()?)?;
        deques.push(deque)?;
    }
    Ok((deques, thieves))
}

// Runs a worker with each of these passes, each in its own thread, until all have ended.
fn in_threads<
    'x,
    J: Naming + Send + Sync,
    D: Disk + Send,
    P: Probe + Sync,
    R: Threads + Wait + Sync,
>(
    rt: &'x R,
    alloc: Global,
    hub: &'x Hub<J, D>,
    probe: &'x P,
    boss: WorkPass<J>,
    crew: CrewOf<'x, J>,
    handles: Vec<PromisedHandle<Ended<J>, AsProbed<P>>>,
    passes: Vec<WorkPass<J>>,
) -> Back<J>
    requires room { HasRoomForAll crew.workers handles passes }
    ensures asked { result.causes.asked ≡ true → P.may_stop ≡ true }
    ensures full { result.causes.full ≡ true → OneSawFull J.opening result.passes.items }
{
    scope(
        scope_env(),
        rt,
        move |scope| -> Back<J>
            requires { HasRoomForAll crew.workers handles passes }
            ensures { AreTrueCauses P.may_stop J.opening result.causes result.passes.items }
        {
            let started = start(scope, rt, alloc, hub, probe, boss, crew, handles, passes);
            join_all(rt, started)
        },
    )
}

// Starts a thread for each of these passes. After the first that cannot be started it starts no more, and asks those
// that run to stop.
fn start<
    's,
    'e: 's,
    J: Naming + Send + Sync,
    D: Disk + Send,
    P: Probe + Sync,
    R: Threads + Wait + Sync,
>(
    scope: &'s Scope<'s, &'e ()>,
    rt: &'e R,
    alloc: Global,
    hub: &'e Hub<J, D>,
    probe: &'e P,
    mut boss: WorkPass<J>,
    crew: CrewOf<'e, J>,
    mut handles: Vec<PromisedHandle<Ended<J>, AsProbed<P>>>,
    mut passes: Vec<WorkPass<J>>,
) -> Started<J, P>
    requires room { HasRoomForAll crew.workers handles passes }
    ensures room { vec_len result.handles + vec_len result.passes ≤ vec_capacity result.passes }
{
    hubs_cross::<J, D>();
    let CrewOf {
        mut workers,
        mut deques,
        thieves,
    } = crew;
    let mut no_thread = false;
    while let Some(pass) = workers.pop() {
        let own = deques.pop().unwrap();
        let number = pass.number();
        if no_thread {
            passes.push_reserved(pass);
        } else {
            match scope.spawn_with(AsProbed { of: PhantomData }, move || {
                let shelf = Shelf::new(alloc, own, thieves, number);
                work(rt, alloc, hub, pass, shelf, probe)
            }) {
                Ok(handle) => handles.push_reserved(handle),
                Err(refused) => {
                    // The worker was given back. It is run here, and ends at once, since a stop was asked for.
                    no_thread = true;
                    hub.ask_stop(&mut boss);
                    let here = refused.value;
                    passes.push_reserved(here().pass);
                }
            }
        }
    }
    passes.push_reserved(boss);
    Started {
        handles,
        passes,
        no_thread,
    }
}

// Waits for the threads.
fn join_all<J: Naming, P: Probe, R: Threads>(rt: &R, started: Started<J, P>) -> Back<J>
    requires room { vec_len started.handles + vec_len started.passes ≤ vec_capacity started.passes }
    ensures asked { result.causes.asked ≡ true → P.may_stop ≡ true }
    ensures full { result.causes.full ≡ true → OneSawFull J.opening result.passes.items }
{
    let Started {
        mut handles,
        mut passes,
        no_thread,
    } = started;
    let mut causes = Causes::of_start(no_thread);
    while let Some(handle) = handles.pop() {
        let Ended { pass, met } = handle.join(rt);
        causes = causes.also(met);
        passes.push_reserved(pass);
    }
    Back { passes, causes }
}
