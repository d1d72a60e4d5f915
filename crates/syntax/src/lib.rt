//! Graph texts: their tokens and their trees.
//!
//! A text has one list of tokens, each the longest that fits at its place (`AreTokens`). Its tree is the one that the
//! grammar derives from them within the limits (`IsRead`). The layer above uses `read_tree`, which returns that tree or
//! the cause of a fault, and the laws `tokens_once`, `one_derivation` and `read_without_fault`.
#![tactic(auto)]

mod blocks;
mod characters;
mod cursor;
mod declarations;
mod expressions;
mod fault;
mod grammar;
mod joints;
mod keys;
mod law;
mod level;
mod lexer;
mod limits;
mod name_lists;
mod numbers;
mod operand;
mod own_statements;
mod parser;
mod part;
mod partial;
mod preamble;
mod relations;
mod step_names;
mod steps;
mod stop;
mod symbols;
mod token;
mod tree;
mod words;

pub use characters::{is_digit, is_letter, leading_digits, leading_word};
pub use fault::{TreeError, TreeFault};
pub use grammar::grammar_example;
pub use law::{derived_may_come, grammar_limits, one_derivation, read_without_fault, tokens_once};
pub use lexer::tokens;
pub use limits::{MOST_BRACES, MOST_BRACKETS, MOST_DEPTH, MOST_NAME_BYTES};
pub use parser::read_tree;
pub use token::{Placed, Symbol, Token, Word};
pub use tree::{Declaration, Relation, Tree};
pub use words::reserved_word;
