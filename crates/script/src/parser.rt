//! Parsing a script into its commands.
ghost use Rattle.std.specs.Prelude.{IfErr, IfOk};
ghost use Rattle.script.specs.Script.{IsRefused, IsScript};

use crate::line::{first_line, read_line};
use crate::{Command, ScriptError, ScriptFault};
use graph::Graph;
use std::alloc::Global;

/// The greatest number of bytes of a script.
pub const MOST_BYTES: usize = 1_048_576;

/// The commands of a script for a graph, in order.
///
/// A script consists of lines, each ended by a line feed; the last may have none. Spaces may be anywhere between tokens, and
/// a line without a token asks for nothing. The forms are `put [c: k, ..] = v`, `tag <t: k, ..>`, `get [c: k, ..]` and
/// `run`.
///
/// # Errors
///
/// - `At(1, TooLarge)`: the script has more than 1,048,576 bytes. This is reported before any other fault, even if a line
///   has one.
/// - `At(n, fault)`: line `n`, counted from 1, is the first with a fault. If it has several, the first in this order is
///   reported: `Syntax`, `Number`, `UnknownName`, `Arity`.
/// - `NoMemory`: memory was refused.
pub fn parse_script(alloc: Global, graph: &Graph, text: &[u8]) -> Result<Vec<Command>, ScriptError>
    ensures commands { IfOk result (λ commands. IsScript graph.now text.now commands.items) }
    ensures refused { IfErr result (IsRefused graph.now text.now) }
{
    if text.len() > MOST_BYTES {
        return Err(ScriptError::At(1, ScriptFault::TooLarge));
    }
    let mut commands = Vec::new(alloc);
    let mut tokens = Vec::new(alloc);
    let mut left = text;
    let mut number = 1;
    loop {
        let (line, behind) = first_line(left);
        read_line(graph, &mut tokens, &mut commands, number, line)?;
        let Some(behind) = behind else {
            return Ok(commands);
        };
        left = behind;
        number += 1;
    }
}
