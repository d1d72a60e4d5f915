//! Scripts: what the environment asks of a store, one line for each command.
//!
//! A text is a script if each line has no token or asks for a command of the graph (`IsScript`). The layer above uses
//! `parse_script`, which returns the commands or the first line with a fault, and the laws `scripts_once` and `script_limit`.
#![tactic(auto)]

mod characters;
mod command;
mod cursor;
mod error;
mod key;
mod law;
mod lexer;
mod line;
mod names;
mod parser;
mod request;
mod token;

pub use command::Command;
pub use error::{ScriptError, ScriptFault};
pub use law::{forms_once, script_limit, scripts_once, tokens_once};
pub use parser::{MOST_BYTES, parse_script};
