//! The tags that are there and the instances that they prescribe. Each instance is in exactly one state: ready,
//! running, waiting at an address, or done.
//!
//! Clauses see `Instances` as `Known`: the tags with their marks, and for each step the tag collection that prescribes
//! it and the states of its instances. They see a `Task` as its instance. A `Ticket` names an instance that was ready when the ticket was handed out; no clause sees
//! which ready instances were handed out.
//!
//! The crate above relies on `prescribe`, which adds exactly the instances of a new tag; on `claim`; and on `finish`,
//! `park`, `release` and `wake`, each of which moves one instance and changes nothing else. `restored` takes over the tags
//! of a store that was closed before, with the instances that they prescribe; `walk` gives all instances with their
//! states, and `done_walk` those that are done; `tag_marks` and `done_marks` lend them with marks.
#![tactic(auto)]

mod done_maps;
mod done_walk;
mod ended;
mod instance_walk;
mod instances;
mod listing;
mod marked_instances;
mod marked_tags;
mod marking;
mod numbers;
mod prescribed;
mod queue_order;
mod ready_queue;
mod restored;
mod running;
mod standing;
mod state;
mod state_walk;
mod states;
mod step;
mod step_instances;
mod tag_walk;
mod task;
mod tasks;
mod ticket;
mod tickets;

pub use done_walk::DoneWalk;
pub use instance_walk::InstanceWalk;
pub use instances::Instances;
pub use marked_instances::MarkedInstances;
pub use marked_tags::MarkedTags;
pub use numbers::Numbers;
pub use running::runs_are_counted;
pub use state::State;
pub use tag_walk::TagWalk;
pub use task::Task;
pub use tasks::Tasks;
pub use ticket::Ticket;
pub use tickets::MOST_TICKETS;
