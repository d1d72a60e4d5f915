//! Makes bodies into code.
//!
//! Statements are compiled from the last to the first, so that each knows the place where it goes on.
ghost use Rattle.std.specs.Prelude.{◌≡◌, IfOk, Some};
ghost use Rattle.steptree.specs.Tree as tree;
ghost use Rattle.steptree.specs.Executed.{Performs};
ghost use Rattle.steptree.specs.Compiled.{Compiles, CompilesLoop, IsCode, Keeps, Stands, simple_of};
ghost use Rattle.steptree.specs.SeenBlocks.{stated};

mod formulas;

use crate::{Block, Body, Code, Expression, Instruction, Simple, Slot, Statement};
use formulas::formula;
use std::alloc::{AllocError, Global};

/// The code of a body.
pub(crate) fn compile(alloc: Global, body: &Body) -> Result<Code, AllocError>
    ensures { IfOk result (λ code. Performs code body.now) }
{
    let mut instructions = Vec::new(alloc);
    let end = push(&mut instructions, Instruction::End)?;
    let middle = compile_block(alloc, &mut instructions, &body.write, end)?;
    let start = compile_block(alloc, &mut instructions, &body.read, middle)?;
    Ok(Code {
        instructions,
        start,
    })
}

// Adds the code of a block that goes on at `stop`. The result is the place where it begins.
#[cycle(compile)]
fn compile_block(
    alloc: Global,
    code: &mut Vec<Instruction>,
    block: &Block,
    stop: usize,
) -> Result<usize, AllocError>
    ensures code { IfOk result (λ at. IsCode code.new.items at block.now stop) }
    ensures keeps { IfOk result (λ at. Keeps code.old.items code.new.items) }
{
    let mut at = stop;
    let mut left = block.statements.len();
    while left > 0 {
        left -= 1;
        at = compile_statement(alloc, code, &block.statements[left], at)?;
    }
    Ok(at)
}

// Adds the code of a statement, after which the code goes on at `next`. The result is the place where it begins.
#[cycle(compile)]
fn compile_statement(
    alloc: Global,
    code: &mut Vec<Instruction>,
    statement: &Statement,
    next: usize,
) -> Result<usize, AllocError>
    ensures code { IfOk result (Compiles (stated statement.now) code.old.items next code.new.items) }
    ensures keeps { IfOk result (λ at. Keeps code.old.items code.new.items) }
{
    match statement {
        Statement::Simple(simple) => compile_simple(alloc, code, simple, next),
        Statement::If {
            condition,
            first,
            second,
        } => choose(alloc, code, condition, first, second, next),
        Statement::For {
            variable,
            from,
            to,
            block,
        } => repeat(alloc, code, *variable, from, to, block, next),
    }
}

// Adds a simple statement.
fn compile_simple(
    alloc: Global,
    code: &mut Vec<Instruction>,
    statement: &Simple,
    next: usize,
) -> Result<usize, AllocError>
    ensures code { IfOk result (Compiles (tree.Do statement.now) code.old.items next code.new.items) }
    ensures keeps { IfOk result (λ at. Keeps code.old.items code.new.items) }
{
    let one = instruction(alloc, statement, next)?;
    let at = push(code, one)?;
    Ok(at)
}

// The instruction of a simple statement. An assignment has one of its own.
fn instruction(alloc: Global, statement: &Simple, next: usize) -> Result<Instruction, AllocError>
    ensures { IfOk result (λ one. simple_of one ≡ Some (statement.now, next)) }
{
    match statement {
        Simple::Assign { variable, value } => Ok(Instruction::Assign {
            variable: *variable,
            value: formula(alloc, value)?,
            next,
        }),
        _ => Ok(Instruction::Do {
            statement: statement.copied(alloc)?,
            next,
        }),
    }
}

// Adds a choice between two blocks.
#[cycle(compile)]
fn choose(
    alloc: Global,
    code: &mut Vec<Instruction>,
    condition: &Expression,
    first: &Block,
    second: &Block,
    next: usize,
) -> Result<usize, AllocError>
    ensures code { IfOk result (Compiles (tree.If condition.now first.now second.now) code.old.items next code.new.items) }
    ensures keeps { IfOk result (λ at. Keeps code.old.items code.new.items) }
{
    let first = compile_block(alloc, code, first, next)?;
    let second = compile_block(alloc, code, second, next)?;
    let condition = formula(alloc, condition)?;
    let at = push(
        code,
        Instruction::Branch {
            condition,
            first,
            second,
        },
    )?;
    Ok(at)
}

// Adds a loop.
#[cycle(compile)]
fn repeat(
    alloc: Global,
    code: &mut Vec<Instruction>,
    variable: Slot,
    from: &Expression,
    to: &Expression,
    block: &Block,
    after: usize,
) -> Result<usize, AllocError>
    ensures code { IfOk result (CompilesLoop variable from.now to.now block.now code.old.items after code.new.items) }
    ensures keeps { IfOk result (λ at. Keeps code.old.items code.new.items) }
{
    let turn = push(code, Instruction::Turn)?;
    let begin = compile_block(alloc, code, block, turn)?;
    let from = from.copied(alloc)?;
    let to = to.copied(alloc)?;
    let at = push(
        code,
        Instruction::For {
            variable,
            from,
            to,
            turn,
            begin,
            after,
        },
    )?;
    Ok(at)
}

// Adds an instruction. The result is its place.
#[tactic(auto, using(crate::proofs::Coded::stands_last, crate::proofs::Coded::keeps_more))]
fn push(code: &mut Vec<Instruction>, one: Instruction) -> Result<usize, AllocError>
    ensures stands { IfOk result (λ at. Stands code.new.items at one) }
    ensures keeps { IfOk result (λ at. Keeps code.old.items code.new.items) }
{
    code.reserve(1)?;
    let at = code.len();
    code.push_reserved(one);
    Ok(at)
}
