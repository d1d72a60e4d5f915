//! The meaning of a graph, the laws that no legal order of its steps leaves that meaning, and the state of a store in memory.
//!
//! `Meaning` of `specs/Meaning.antt` is the least set of facts that a graph has on an environment; `AreLegal` of
//! `specs/Legal.antt` says which events may be committed one after another. The layers above use the laws of `laws`.
//!
//! Contracts see a `Machine` as its graph and what it holds: the sets `facts` and `environment`, and the state of each
//! instance. It checks whether an event is legal (`may_put_item`, `may_end`), makes room (`make_room`), and takes the event
//! (`take_item`, `take_end`); `is_kept` states its invariant. `look_at_ends` says how far several ends come together,
//! and `take_ends` takes them; `look_at_puts` and `take_puts` do so for puts of the environment. `image` lists what it holds, `image_source`
//! spells that piece by piece, and `of_holdings` takes over what was read; `items`, `tags` and `done` go along it, one after another.
//! `marks` lends it with marks at its facts.
#![tactic(auto)]

mod absence;
mod counts;
mod creation;
mod distinct;
mod elements;
mod end;
mod ends;
mod events;
mod examples;
mod group;
mod group_taking;
mod growth;
mod held;
mod image_walk;
mod imaging;
mod items_of;
mod keeping;
mod laws;
mod looks;
mod machine;
mod marks;
mod memory;
mod promise;
mod puts_together;
mod reads;
mod refusal;
mod restoring;
mod results;
mod spelling;
mod states;
mod status;
mod taking;
mod tally;
mod tasks;
mod tickets;
mod turns;
mod waking;
mod working;

pub use counts::Counts;
pub use end::End;
pub use examples::{
    fibonacci_numbers, item_put_twice, meant_and_not_reached, refused_examples, room_is_counted,
    tag_is_repeated, two_ends_meet,
};
pub use group::Ended;
pub use image_walk::ImageWalk;
pub use items_of::ItemsOf;
pub use keeping::given_are_of_graph;
pub use laws::{
    each_instance_can_go_on, legal_events_fit, legal_lists_go_on, one_end, quiet_is_meaning,
    stays_within, stopped_is_not_clean,
};
pub use machine::Machine;
pub use marks::Marks;
pub use refusal::Refusal;
pub use results::results_are_meant;
pub use states::{reached_and_quiet, reached_goes_on, reached_within, unfinished_wait};
pub use tasks::are_once;
pub use turns::{
    cut_in_turn, fit_in_turn, legal_in_turn, room_in_turn, run_in_turn, taken_in_turn,
};
