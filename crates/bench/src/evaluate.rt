//! How long the evaluator takes for a number of statements.
use crate::readings::seconds_between;
use anyhow::Error;
use std::alloc::{AllocError, Global};
use std::io::Print;
use std::time::{Clock, Instant};
use steplang::{
    Block, Body, Checked, Components, Expression, Node, Operator, Run, Simple, Slot, Statement,
    Turn,
};
use terms::{Inst, ItemCollection, Key, StepCollection};

/// The turns of the loop of an instance. The loop, its turns, an assignment in each and the put are as many as one
/// instance may take.
const TURNS: u32 = 499_999;

/// Runs instances of `write { for b in 0 .. k { a = (a + b); } put [0] = a; }` until at least `statements` statements
/// and turns are done, and prints their number, the time, and how many puts the last instance made.
pub(crate) fn measure<R: Clock + Print + AllocGlobal>(
    rt: &R,
    statements: u32,
) -> Result<(), Error> {
    let checked = sum(rt.alloc())?;
    tell(rt, &checked, statements)
}

fn tell<R: Clock + Print + AllocGlobal>(
    rt: &R,
    checked: &Checked,
    statements: u32,
) -> Result<(), Error> {
    let runs = statements.div_ceil(2 * TURNS + 2);
    let start = Instant::now(rt);
    let mut puts = 0;
    for _ in 0..runs {
        puts = made(rt.alloc(), checked)?;
    }
    let seconds = seconds_between(start, Instant::now(rt))?;
    let count = u64::from(runs) * u64::from(2 * TURNS + 2);
    println!(rt; "{count} statements in {seconds} seconds, {puts} puts an instance")?;
    Ok(())
}

// How many puts an instance made.
fn made(alloc: Global, checked: &Checked) -> Result<usize, AllocError> {
    let instance = Inst {
        collection: StepCollection(0),
        key: Key::new(&[i64::from(TURNS)]),
    };
    if instance.key.components().len() != checked.parameters {
        return Ok(0);
    }
    let mut run = Run::start(alloc, checked, instance)?;
    match run.advance(None)? {
        Turn::Gave(given) => Ok(given.puts().as_slice().len()),
        _ => Ok(0),
    }
}

// write { for b in 0 .. k { a = (a + b); } put [0] = a; }
fn sum(alloc: Global) -> Result<Checked, AllocError> {
    let mut statements = Vec::new(alloc);
    statements.push(loop_of(alloc)?)?;
    statements.push(put_of(alloc))?;
    let body = Body {
        read: Block::end(alloc),
        write: Block { statements },
    };
    Checked::new(alloc, Vec::new(alloc), 1, body)
}

// put [0] = a;
fn put_of(alloc: Global) -> Statement {
    Statement::Simple(Simple::PutItem {
        collection: ItemCollection(0),
        components: Components::new(Vec::new(alloc)),
        value: variable(total()),
    })
}

// for b in 0 .. k { a = (a + b); }
fn loop_of(alloc: Global) -> Result<Statement, AllocError> {
    let mut statements = Vec::new(alloc);
    statements.push(add_of(alloc)?)?;
    Ok(Statement::For {
        variable: turn(),
        from: Expression {
            node: Node::Number(0),
        },
        to: variable(Slot::new(0)),
        block: Block { statements },
    })
}

// a = (a + b);
fn add_of(alloc: Global) -> Result<Statement, AllocError> {
    let operands = Box::new(alloc, (variable(total()), variable(turn())))?;
    Ok(Statement::Simple(Simple::Assign {
        variable: total(),
        value: Expression {
            node: Node::Operation(Operator::Add, operands),
        },
    }))
}

// The variable a.
fn total() -> Slot {
    Slot::new(1)
}

// The variable b.
fn turn() -> Slot {
    Slot::new(2)
}

fn variable(slot: Slot) -> Expression {
    Expression {
        node: Node::Variable(slot),
    }
}
