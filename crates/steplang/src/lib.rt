//! The evaluator of the bodies of steps: it stops at each item that a step gets, and goes on with the item's value. The
//! trees of the bodies and their check are in `steptree`, and are re-exported here.
#![tactic(auto)]

mod action;
mod machine;
mod outcome;
mod parked;
mod room;
mod run;
mod value;

pub use outcome::{Bad, Given, Reads, Turn};
pub use parked::Parked;
pub use room::Room;
pub use run::Run;
pub use steptree::{
    Block, Body, CheckError, CheckFault, Checked, Components, Declared, Expression, Name,
    NamedBlock, NamedExpression, NamedSimple, Node, Operator, Sheet, Simple, Slot, Statement, Step,
    check,
};
