//! Graphs may be sent between threads, and shared by threads.
//!
//! Each function here is a law, with nothing to run. The prover does not work through all the statements of a step's body
//! by itself, so there is a law for each part.

ghost use denote.Param.Send.{IsSend, IsSync};
ghost use Rattle.terms.specs.contracts.name.ItemCollection as of_item;
ghost use Rattle.terms.specs.contracts.name.TagCollection as of_tag;
ghost use Rattle.steptree.specs.contracts.checked.Checked as of_body;
ghost use Rattle.steptree.specs.contracts.code.Formula as of_formula;
ghost use Rattle.steptree.specs.contracts.code.Instruction as of_instruction;
ghost use Rattle.steptree.specs.contracts.components.Components as of_components;
ghost use Rattle.steptree.specs.contracts.simple.Simple as of_simple;
ghost use Rattle.steptree.specs.contracts.slot.Slot as of_slot;
ghost use Rattle.graph.specs.contracts.graph.Graph as of_graph;
ghost use Rattle.graph.specs.contracts.graph.Prescribed as of_step;
ghost use Rattle.graph.specs.contracts.numbered.Numbered as of_names;

use crate::graph::Prescribed;
use indexmap::IndexMap;
use steptree::{Block, Body, Code, Components, Expression, Formula, Link, Simple, Slot, Statement};
use terms::{StepCollection, TagCollection};

/// Gives its caller the clause that trait search finds for a type.
pub fn goes<T: Send>()
    ensures { IsSend T.row }
{}

/// The same for sharing between threads.
pub fn is_shared<T: Sync>()
    ensures { IsSync T.row }
{}

/// Names with a value each.
fn names_go<V: Send>()
    ensures { IsSend (of_names.the_row V.row) }
{
    goes::<String>();
    goes::<IndexMap<String, V>>();
}

/// The same for sharing between threads.
fn names_are_shared<V: Sync>()
    ensures { IsSync (of_names.the_row V.row) }
{
    is_shared::<String>();
    is_shared::<IndexMap<String, V>>();
}

/// The components of a key.
fn components_go()
    ensures { IsSend of_components.the_row }
{
    goes::<Expression>();
    goes::<Components>();
}

/// The same for sharing between threads.
fn components_are_shared()
    ensures { IsSync of_components.the_row }
{
    is_shared::<Expression>();
    is_shared::<Components>();
}

/// A statement without blocks.
fn simple_statements_go()
    ensures { IsSend (of_simple.the_row of_slot.the_row of_item.the_row of_tag.the_row of_components.the_row) }
{
    components_go();
    goes::<Simple>();
}

/// The same for sharing between threads.
fn simple_statements_are_shared()
    ensures { IsSync (of_simple.the_row of_slot.the_row of_item.the_row of_tag.the_row of_components.the_row) }
{
    components_are_shared();
    is_shared::<Simple>();
}

/// An expression in the form in which it is evaluated.
fn formulas_go()
    ensures { IsSend of_formula.the_row }
{
    goes::<Expression>();
    goes::<Vec<Link>>();
    goes::<Formula>();
}

/// The same for sharing between threads.
fn formulas_are_shared()
    ensures { IsSync of_formula.the_row }
{
    is_shared::<Expression>();
    is_shared::<Vec<Link>>();
    is_shared::<Formula>();
}

/// An instruction.
fn instructions_go()
    ensures { IsSend of_instruction.the_row }
{
    goes::<Slot>();
    goes::<Expression>();
    simple_statements_go();
    formulas_go();
}

/// The same for sharing between threads.
fn instructions_are_shared()
    ensures { IsSync of_instruction.the_row }
{
    is_shared::<Slot>();
    is_shared::<Expression>();
    simple_statements_are_shared();
    formulas_are_shared();
}

/// The body of a step, with its code.
fn bodies_go()
    ensures { IsSend of_body.the_row }
{
    goes::<Expression>();
    simple_statements_go();
    goes::<Statement>();
    goes::<Block>();
    instructions_go();
    goes::<Body>();
    goes::<Code>();
    goes::<Vec<String>>();
}

/// The same for sharing between threads.
fn bodies_are_shared()
    ensures { IsSync of_body.the_row }
{
    is_shared::<Expression>();
    simple_statements_are_shared();
    is_shared::<Statement>();
    is_shared::<Block>();
    instructions_are_shared();
    is_shared::<Body>();
    is_shared::<Code>();
    is_shared::<Vec<String>>();
}

/// What a graph holds of a step collection.
fn steps_go()
    ensures { IsSend of_step.the_row }
{
    bodies_go();
    goes::<Vec<bool>>();
    goes::<TagCollection>();
}

/// The same for sharing between threads.
fn steps_are_shared()
    ensures { IsSync of_step.the_row }
{
    bodies_are_shared();
    is_shared::<Vec<bool>>();
    is_shared::<TagCollection>();
}

/// A graph may be sent between threads, and shared by threads.
pub fn graphs_cross()
    ensures sent { IsSend of_graph.the_row }
    ensures shared { IsSync of_graph.the_row }
{
    steps_go();
    names_go::<usize>();
    names_go::<Prescribed>();
    goes::<Vec<bool>>();
    goes::<Vec<Vec<StepCollection>>>();
    steps_are_shared();
    names_are_shared::<usize>();
    names_are_shared::<Prescribed>();
    is_shared::<Vec<bool>>();
    is_shared::<Vec<Vec<StepCollection>>>();
}
