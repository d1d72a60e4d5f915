//! The bodies of steps: their tree, and what it means.
//!
//! A `Body` has its variables as slots and its collections as numbers. What it means is `Along`: how it ends along a list
//! of reads. The crates above rely on that definition and on the laws of `laws`.
#![tactic(auto)]

mod block;
mod body;
mod checked;
mod checker;
mod code;
mod compiler;
mod components;
mod expression;
mod laws;
mod sheet;
mod simple;
mod slot;
mod step;

pub use block::{Block, Statement};
pub use body::{BUDGET, Body};
pub use checked::Checked;
pub use checker::{CheckError, CheckFault, check};
pub use code::{Code, Formula, Instruction, Link, Loop, Operand, Pair};
pub use components::Components;
pub use expression::{Expression, Node, Operator};
pub use laws::{
    along_one_list, ends_once, ends_within_limits, growth_keeps, keeps_to_its_sheet, limits,
};
pub use sheet::{Declared, MOST_COLLECTIONS, Sheet};
pub use simple::{Action, Simple};
pub use slot::{MOST_NAMES, Slot};
pub use step::{Name, NamedBlock, NamedExpression, NamedSimple, NamedStatement, Step};
