//! How a file of cases is written: as blocks with blank lines between them.
//!
//! A block is a command and its input, a line `----`, and the result that must come. If the line is `---- not`, another
//! result must come: such a case shows that a difference is found. A line that begins with `# ` is a comment.
use anyhow::Error;
use std::alloc::{AllocError, Global};
use std::fs;
use std::io::Print;

/// How many cases a file has, and how many of them differ.
#[derive(Clone, Copy, Debug)]
pub struct Tally {
    pub cases: u64,
    pub differ: u64,
}

// A block as far as it was read.
#[derive(Drop)]
struct Block {
    // The number of its last line, from 0.
    line: usize,
    asked: String,
    wanted: String,
    // Whether the line between the two parts was read, and whether it wants another result.
    is_answered: bool,
    is_refuted: bool,
}

impl Block {
    fn new(alloc: Global) -> Self {
        Block {
            line: 0,
            asked: String::new(alloc),
            wanted: String::new(alloc),
            is_answered: false,
            is_refuted: false,
        }
    }

    // Takes a line that is not blank.
    fn take(&mut self, line: &str) -> Result<(), AllocError> {
        if line.starts_with("# ") {
            return Ok(());
        }
        if line == "----" || line == "---- not" {
            self.is_answered = true;
            self.is_refuted = line == "---- not";
            return Ok(());
        }
        let text = if self.is_answered {
            &mut self.wanted
        } else {
            &mut self.asked
        };
        text.push_str(line)?;
        text.push_str("\n")
    }
}

/// Runs the cases of a file. The function gives the result of each, from its command and its input. Prints the cases
/// that differ, and how many cases there are.
pub fn run_file<F: FnMut(&str, &str) -> Result<String, AllocError>>(
    rt: &HostRuntime,
    path: &str,
    answer: F,
) -> Result<Tally, Error>
    requires { (state : F) (command input : _) → F.pre state command input }
{
    let text = fs::read_to_string(rt, path)?;
    let mut told = String::new(rt.alloc());
    let tally = run_cases(rt.alloc(), path, text.as_str(), answer, &mut told)?;
    rt.print(told.as_str())?;
    Ok(tally)
}

/// Runs the cases of a file with this text, and writes those that differ, and how many there are.
pub fn run_cases<F: FnMut(&str, &str) -> Result<String, AllocError>>(
    alloc: Global,
    path: &str,
    text: &str,
    answer: F,
    told: &mut String,
) -> Result<Tally, AllocError>
    requires { (state : F) (command input : _) → F.pre state command input }
{
    let mut answer = answer;
    let mut tally = Tally {
        cases: 0,
        differ: 0,
    };
    let mut block = Block::new(alloc);
    for (number, line) in text.lines().enumerate() {
        if line.is_empty() {
            run_block(path, &mut answer, &block, &mut tally, told)?;
            block = Block::new(alloc);
        } else {
            block.line = number;
            block.take(line)?;
        }
    }
    run_block(path, &mut answer, &block, &mut tally, told)?;
    writeln!(
        told,
        "{path}: {} cases, {} differ",
        tally.cases, tally.differ
    )?;
    Ok(tally)
}

// Runs a block, if it has a command, and writes its difference, if there is one.
fn run_block<F: FnMut(&str, &str) -> Result<String, AllocError>>(
    path: &str,
    answer: &mut F,
    block: &Block,
    tally: &mut Tally,
    told: &mut String,
) -> Result<(), AllocError>
    requires { (state : F) (command input : _) → F.pre state command input }
{
    let (command, input) = block
        .asked
        .as_str()
        .split_once('\n')
        .unwrap_or((block.asked.as_str(), ""));
    if command.is_empty() {
        return Ok(());
    }
    let came = answer(command, input)?;
    if !block.is_answered && came.is_empty() {
        return Ok(());
    }
    tally.cases = tally.cases.saturating_add(1);
    let is_same = came.as_str() == block.wanted.as_str();
    if is_same == block.is_refuted || !block.is_answered {
        tally.differ = tally.differ.saturating_add(1);
        tell_difference(path, block, came.as_str(), told)?;
    }
    Ok(())
}

// Writes a block that had another result than it must have.
fn tell_difference(
    path: &str,
    block: &Block,
    came: &str,
    told: &mut String,
) -> Result<(), AllocError> {
    let last = block.line.saturating_add(1);
    let wanted = block.wanted.as_str();
    let but = if block.is_refuted {
        " anything but"
    } else {
        ""
    };
    writeln!(told, "{path}: the case that ends at line {last} differs")?;
    writeln!(told, "wanted{but}:\n{wanted}came:\n{came}")
}
