//! Cases that are data: each is a command, its input, and the result that must come.
//!
//! A file is made of blocks with blank lines between them: the module `cases` says what a block is, and `texts` how
//! texts are written. The program that runs the file gives the result of each command.
#![tactic(auto)]

mod cases;
mod names;
pub mod texts;

pub use cases::{Tally, run_cases, run_file};
pub use names::Names;
