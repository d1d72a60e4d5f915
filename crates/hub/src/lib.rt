//! A store that threads share: one lock, one history, and two words that are read and written without the lock.
//!
//! A thread calls the `Hub` with a `Pass` of its own. A contract sees a pass as what its holder knows: which commits it
//! has seen, and which were made with it. After each call that takes the lock, the pass has seen a history that begins with
//! what it had seen, and the call's result is that of the state after it; that it is the whole history up to then is said
//! under the lock, by `Kept`. The lock keeps `Kept`: the core, the desk with the book, which is the
//! history and the number of passes, and what fills the watches. The layer above uses the calls of `Hub`, and `close`,
//! which returns the core with a history of just the passes' commits.
#![tactic(auto)]

mod both;
mod close;
mod counting;
mod crossing;
mod error;
mod glance;
mod hub;
mod kept;
mod kept_batch;
mod kept_claims;
mod kept_tickets;
mod open;
mod pass;
mod running;
mod tickets;
mod visit;
mod visits;

pub use both::{Both, BothError, NonePut, put_two};
pub use close::{CloseError, NotClosed};
pub use crossing::{cores_go, hubs_cross};
pub use error::{BatchError, TaskError};
pub use hub::Hub;
pub use kept::Kept;
pub use open::{NotOpened, Opened};
pub use pass::{Env, EnvPass, Work, WorkPass};
pub use running::Ran;
pub use visit::Visit;
