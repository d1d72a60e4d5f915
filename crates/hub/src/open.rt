//! The beginning of a hub.
ghost use Rattle.std.specs.Prelude.{◌≡◌, IfOk, IfErr};
ghost use Rattle.hub.specs.Whole.{IsNamedFor, AreNewPasses};

use crate::glance::Glance;
use crate::{EnvPass, Hub, Kept, WorkPass};
use cells::Fillers;
use commit::Core;
use disk::Disk;
use instances::Numbers;
use passes::{Blank, Naming, deal};
use std::alloc::Global;
use std::sync::{Arc, Mutex};
use vault::stores_go_on;

/// A hub that was not opened, since memory was refused. The core and the blank come back.
pub struct NotOpened<D: Disk> {
    pub core: Core<D>,
    pub blank: Blank,
}

impl<D: Disk> NotOpened<D> {
    /// The core, if the blank is not used again.
    pub fn into_core(self) -> Core<D>
        ensures { result ≡ self.core }
    {
        let NotOpened { core, blank: _ } = self;
        core
    }
}

impl<D: Disk + Drop> Drop for NotOpened<D> {
    fn drop(self) {
        let NotOpened { core: _, blank: _ } = self;
    }
}

/// A hub that was opened, the environment's passes, and the workers'.
pub type Opened<J, D> = (Hub<J, D>, Vec<EnvPass<J>>, Vec<WorkPass<J>>);

impl<J: Naming, D: Disk> Hub<J, D> {
    /// Opens a hub on a core, with as many passes as the blank says.
    pub fn open(alloc: Global, core: Core<D>, blank: Blank) -> Result<Opened<J, D>, NotOpened<D>>
        requires { IsNamedFor D.Disk J.table J.passes J.envs J.opening J.left blank core }
        ensures ok { IfOk result (λ opened. AreNewPasses blank opened.1.items opened.2.items) }
        ensures err { IfErr result (λ not_opened. (not_opened.core ≡ core) × (not_opened.blank ≡ blank)) }
    {
        stores_go_on::<D>();
        core.is_kept();
        let ready = core.ready();
        let env_count = blank.envs();
        let worker_count = blank.workers();
        let mut envs = Vec::new(alloc);
        let mut workers = Vec::new(alloc);
        if envs.reserve(env_count as usize).is_err()
            || workers.reserve(worker_count as usize).is_err()
        {
            return Err(NotOpened { core, blank });
        }
        let Ok(graph) = Arc::clone(core.graph()) else {
            return Err(NotOpened { core, blank });
        };
        let mut core = core;
        core.recall();
        let (board, mut desk) = blank.open::<J>();
        deal(&board, &mut desk, &mut envs, 0, env_count);
        deal(&board, &mut desk, &mut workers, env_count, worker_count);
        let hub = Hub {
            board,
            kept: Mutex::new(Kept {
                core,
                desk,
                fillers: Fillers::new(alloc),
                numbers: Numbers::new(),
            }),
            graph,
            count: env_count as usize + worker_count as usize,
            glance: Glance::new(ready),
        };
        Ok((hub, envs, workers))
    }
}
