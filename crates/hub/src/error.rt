use commit::{Batch, CoreError};
use instances::Task;

/// Why a call with a task was refused.
pub enum TaskError {
    /// The instance of the task does not run here. The task comes back, and the store is as it was.
    Foreign(Task),
    /// The core refused it, as the core's own call says.
    Refused(CoreError),
}

/// Why a call with a batch was refused.
pub enum BatchError<'a> {
    /// An instance of the batch does not run here, or is in it twice. The batch comes back, and the store is as it was.
    Foreign(Batch<'a>),
    /// The core refused it, as the core's own call says.
    Refused(CoreError),
}
