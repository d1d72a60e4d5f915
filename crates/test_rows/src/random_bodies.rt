//! Bodies that come about at random: `alike SEED COUNT` runs that many, and tells each from its tree, too (`plain`). The result says that all came to
//! the same reads, the same puts or fault, and the same count of statements, or shows the first text of which that is not so.
use crate::plain::{Halt, Items, Plain};
use crate::random::Random;
use graph::parse;
use std::alloc::{AllocError, Global};
use steplang::{Bad, Checked, Given, Run, Turn};
use terms::{FaultKind, Inst, Key, StepCollection};

/// How many bodies of those that a seed gives are alike.
pub(crate) fn answer(alloc: Global, words: &str) -> Result<String, AllocError> {
    let mut out = String::new(alloc);
    let (seed, count) = words.split_once(' ').unwrap_or((words, ""));
    match (seed.parse::<u64>(), count.parse::<u32>()) {
        (Ok(seed), Ok(count)) => compare_all(alloc, seed, count, &mut out)?,
        _ => out.push_str("no such bodies\n")?,
    }
    Ok(out)
}

fn compare_all(alloc: Global, seed: u64, count: u32, out: &mut String) -> Result<(), AllocError> {
    let mut random = Random::new(seed);
    for number in 0..count {
        let text = some_text(alloc, &mut random)?;
        if !are_alike(alloc, text.as_str(), &mut random)? {
            return write!(out, "the body with the number {number} differs:\n{text}");
        }
    }
    writeln!(out, "{count} bodies, each alike")
}

// Whether an instance of the text's step comes to the same in both ways.
fn are_alike(alloc: Global, text: &str, random: &mut Random) -> Result<bool, AllocError> {
    let Ok(graph) = parse(alloc, text.as_bytes()) else {
        return Ok(false);
    };
    let step = StepCollection(0);
    let Some(checked) = graph.body(step) else {
        return Ok(false);
    };
    let key = Key::new(&[random.below(9) as i64 - 3]);
    let items = Items {
        seed: random.below(1 << 30) as u64,
    };
    let instance = Inst {
        collection: step,
        key,
    };
    compare(alloc, checked, instance, items)
}

fn compare(
    alloc: Global,
    checked: &Checked,
    instance: Inst,
    items: Items,
) -> Result<bool, AllocError> {
    let mut plain = Plain::new(alloc, items, &instance.key, checked.names.len())?;
    let told = plain.carry_out(&checked.body);
    if checked.parameters != instance.key.components().len() {
        return Ok(false);
    }
    let mut run = Run::start(alloc, checked, instance)?;
    let mut turn = run.advance(None)?;
    for _ in 0..u32::MAX {
        let Some(address) = run.pending() else {
            break;
        };
        turn = run.advance(Some(items.value(&address)))?;
    }
    if run.statements() != plain.counted {
        return Ok(false);
    }
    Ok(match turn {
        Turn::Need(_) => false,
        Turn::Gave(given) => told.is_ok() && gave_the_same(&given, &plain),
        Turn::Fault(bad) => failed_the_same(&bad, &told, &plain),
    })
}

fn gave_the_same(given: &Given<'_>, plain: &Plain) -> bool {
    given.reads.as_slice() == plain.reads.as_slice()
        && given.puts().as_slice() == plain.puts.as_slice()
}

fn failed_the_same(bad: &Bad<'_>, told: &Result<(), Halt>, plain: &Plain) -> bool {
    let kind: FaultKind = bad.kind();
    let same = match told {
        Err(Halt::Fault(there)) => *there == kind,
        _ => false,
    };
    same && bad.reads.as_slice() == plain.reads.as_slice()
}

// The names of a step: its parameter, and its variables.
const NAMES: [&str; 5] = ["i", "a", "b", "c", "d"];

const OPERATORS: [&str; 11] = ["+", "-", "*", "/", "%", "==", "!=", "<", "<=", ">", ">="];

// The text of a graph with one step, whose body is drawn.
fn some_text(alloc: Global, random: &mut Random) -> Result<String, AllocError> {
    let mut text = String::from_str(
        alloc,
        "[x: i]; [y: i, j]; <t: i>;\n<t> :: (s); [x] -> (s); [y] -> (s); (s) -> [x]; (s) -> [y]; (s) -> <t>;\nstep s(i) { var a, b, c, d;\nread {\n",
    )?;
    push_block(alloc, random, "get", &mut text)?;
    text.push_str("}\nwrite {\n")?;
    push_block(alloc, random, "put", &mut text)?;
    text.push_str("} }\n")?;
    Ok(text)
}

// Appends the statements of a block, of which some are gets or puts. What stands open is closed at the end.
fn push_block(
    alloc: Global,
    random: &mut Random,
    word: &str,
    text: &mut String,
) -> Result<(), AllocError> {
    let mut open = Vec::new(alloc);
    for _ in 0..1 + random.below(10) {
        match random.below(8) {
            0 | 1 => push_assignment(alloc, random, text)?,
            2 if open.len() < 4 => {
                open.push(true)?;
                push_if(alloc, random, text)?;
            }
            3 if open.len() < 4 => {
                open.push(false)?;
                push_for(alloc, random, text)?;
            }
            4 | 5 => close_one(&mut open, text)?,
            _ if word == "get" => push_get(alloc, random, text)?,
            _ => push_put(alloc, random, text)?,
        }
    }
    for _ in 0..2 * open.len() {
        close_one(&mut open, text)?;
    }
    Ok(())
}

// Closes the block that was opened last, if there is one. After the first block of an `if` its second one is open.
fn close_one(open: &mut Vec<bool>, text: &mut String) -> Result<(), AllocError> {
    match open.pop() {
        None => Ok(()),
        Some(false) => text.push_str("}\n"),
        Some(true) => {
            open.push(false)?;
            text.push_str("} else {\n")
        }
    }
}

fn push_assignment(
    alloc: Global,
    random: &mut Random,
    text: &mut String,
) -> Result<(), AllocError> {
    let name = some_name(random);
    let value = some_expression(alloc, random)?;
    writeln!(text, "{name} = {value};")
}

fn push_if(alloc: Global, random: &mut Random, text: &mut String) -> Result<(), AllocError> {
    let condition = some_expression(alloc, random)?;
    writeln!(text, "if ({condition}) {{")
}

// A loop goes over a few numbers, or seldom over as many as two expressions give, which may be more than an instance may make.
fn push_for(alloc: Global, random: &mut Random, text: &mut String) -> Result<(), AllocError> {
    let name = some_name(random);
    if random.below(40) > 0 {
        let (from, to) = (random.below(3), random.below(6));
        return writeln!(text, "for {name} in {from} .. {to} {{");
    }
    let from = some_expression(alloc, random)?;
    let to = some_expression(alloc, random)?;
    writeln!(text, "for {name} in {from} .. {to} {{")
}

fn push_get(alloc: Global, random: &mut Random, text: &mut String) -> Result<(), AllocError> {
    let name = some_name(random);
    let first = some_expression(alloc, random)?;
    if random.below(2) == 0 {
        return writeln!(text, "get {name} = [x: {first}];");
    }
    let second = some_expression(alloc, random)?;
    writeln!(text, "get {name} = [y: {first}, {second}];")
}

fn push_put(alloc: Global, random: &mut Random, text: &mut String) -> Result<(), AllocError> {
    let first = some_expression(alloc, random)?;
    let value = some_expression(alloc, random)?;
    match random.below(3) {
        0 => writeln!(text, "put <t: {first}>;"),
        1 => writeln!(text, "put [x: {first}] = {value};"),
        _ => {
            let second = some_expression(alloc, random)?;
            writeln!(text, "put [y: {first}, {second}] = {value};")
        }
    }
}

fn some_name(random: &mut Random) -> &'static str {
    NAMES[random.below(NAMES.len())]
}

// A number or a name.
fn some_atom(alloc: Global, random: &mut Random) -> Result<String, AllocError> {
    match random.below(40) {
        0 => String::from_str(alloc, "9223372036854775807"),
        1 => String::from_str(alloc, "(-9223372036854775807)"),
        2..=12 => {
            let mut text = String::new(alloc);
            let number = random.below(7);
            write!(text, "{number}")?;
            Ok(text)
        }
        _ => String::from_str(alloc, some_name(random)),
    }
}

// Two rows of operations, with one operation between them; or one row alone.
fn some_expression(alloc: Global, random: &mut Random) -> Result<String, AllocError> {
    let first = some_row(alloc, random)?;
    if random.below(3) > 0 {
        return Ok(first);
    }
    let second = some_row(alloc, random)?;
    operation(alloc, random, first.as_str(), second.as_str())
}

// A number or a name, with up to three operations around it.
fn some_row(alloc: Global, random: &mut Random) -> Result<String, AllocError> {
    let mut text = some_atom(alloc, random)?;
    for _ in 0..random.below(4) {
        let other = some_atom(alloc, random)?;
        text = match random.below(5) {
            0 => negation(alloc, text.as_str())?,
            1 | 2 => operation(alloc, random, text.as_str(), other.as_str())?,
            _ => operation(alloc, random, other.as_str(), text.as_str())?,
        };
    }
    Ok(text)
}

fn negation(alloc: Global, operand: &str) -> Result<String, AllocError> {
    let mut text = String::new(alloc);
    write!(text, "(-{operand})")?;
    Ok(text)
}

fn operation(
    alloc: Global,
    random: &mut Random,
    left: &str,
    right: &str,
) -> Result<String, AllocError> {
    let operator = OPERATORS[random.below(OPERATORS.len())];
    let mut text = String::new(alloc);
    write!(text, "({left} {operator} {right})")?;
    Ok(text)
}
