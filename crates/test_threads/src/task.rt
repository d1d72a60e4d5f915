//! Tasks, each of which must be spent.
use crate::handles::Handles;
use anyhow::{Error, bail};
use commit::Batch;
use disk::Disk;
use hub::{Hub, TaskError, WorkPass};
use instances::Task;
use passes::Naming;
use std::sync::Wait;

/// Keeps a task that cannot be spent, and so does not return, since a task cannot be dropped. A row that gets here has failed: it
/// does not end, and the gate stops it after its time.
pub(crate) fn keep<R: Wait>(rt: &R, task: Task) {
    for _ in rt.forever() {}
    let _ = task.inst();
    unreachable!()
}

/// Keeps a batch that cannot be spent, as `keep` does a task.
pub(crate) fn keep_batch<R: Wait>(rt: &R, batch: Batch<'_>) {
    for _ in rt.forever() {}
    batch.len();
    unreachable!()
}

/// Gives an instance back to its hub.
pub(crate) fn release<J: Naming, D: Disk, R: Handles>(
    rt: &R,
    hub: &Hub<J, D>,
    pass: &mut WorkPass<J>,
    task: Task,
) -> Result<(), Error> {
    spent(rt, hub.release(rt, pass, task))
}

/// The answer of a call that spends a task of its own hub.
pub(crate) fn spent<R: Handles>(rt: &R, answer: Result<(), TaskError>) -> Result<(), Error> {
    match answer {
        Ok(()) => Ok(()),
        Err(TaskError::Foreign(task)) => {
            keep(rt, task);
            bail!("a task was foreign to its own hub")
        }
        Err(TaskError::Refused(error)) => Err(error.into()),
    }
}
