//! Graphs as Graphviz text: items as boxes, tags as triangles, steps as ellipses, and the environment as `env`. Stores
//! too, with what they hold and what their steps wait for.
#![tactic(auto)]

mod drawn;
mod error;
mod store;

pub use drawn::draw_graph;
pub use error::DrawError;
pub use store::{MOST_DRAWN, draw_store};
