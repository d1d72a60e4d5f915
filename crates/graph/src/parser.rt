//! Parsing: the graph of a text, or the first fault of the text.
ghost use Rattle.std.specs.Prelude.{◌≡◌, ◌≤◌, ◌<◌, ◌⊎◌, length, take, MatchResult, IfOk, IfErr};
ghost use Rattle.std.specs.List.{AllByRecursion};
ghost use Rattle.graph.specs.Canonical.{canonical};
ghost use Rattle.graph.specs.Placed.{no_memory as refused};
ghost use Rattle.graph.specs.Reads.{Reads, HasCause, IsCause, IsAsciiText, IsNotAscii, walked};

use crate::MOST_TEXT;
use crate::build::graph_of;
use crate::fault::{GraphError, GraphFault, PlacedFault, TOO_LARGE};
use crate::graph::Graph;
use crate::place::place;
use std::alloc::Global;
use syntax::read_tree;

/// The graph of a text.
///
/// A text with a fault is rejected with the line and column of its first fault, in this order:
///
/// 1. a text of more than `MOST_TEXT` bytes: too large, at 1:1;
/// 2. the first byte of 128 or more: not ASCII;
/// 3. the first token, from the left, with which no graph text continues, or which exceeds a limit. A text that ends too
///    early has its fault at the place after its last byte;
/// 4. the names and relations, by position;
/// 5. the bodies, from the left;
/// 6. a canonical text of more than `MOST_TEXT` bytes: too large, at 1:1.
///
/// `NoMemory` may come at any point, when memory was refused.
pub fn parse(alloc: Global, text: &[u8]) -> Result<Graph, GraphFault>
    ensures reads { IfOk result (λ graph. Reads text.now graph) }
    ensures cause { IfErr result (λ fault. HasCause text.now fault) }
{
    let (graph, _) = parse_spelled(alloc, text)?;
    Ok(graph)
}

/// The graph of a text, with its canonical text, whose length is checked. `parse` is this without the canonical text.
pub fn parse_spelled(alloc: Global, text: &[u8]) -> Result<(Graph, Vec<u8>), GraphFault>
    ensures reads { IfOk result (λ both. Reads text.now both.0) }
    ensures spelled { IfOk result (λ both. both.1.items ≡ canonical both.0) }
    ensures cause { IfErr result (λ fault. HasCause text.now fault) }
{
    match read(alloc, text) {
        Ok(both) => Ok(both),
        Err(fault) => Err(located(text, fault)),
    }
}

// The fault with its line and column.
fn located(text: &[u8], fault: PlacedFault) -> GraphFault
    requires cause { (fault ≡ refused) ⊎ IsCause text.now fault.error fault.position }
    ensures { HasCause text.now result }
{
    if let GraphError::NoMemory = fault.error {
        return GraphFault {
            error: GraphError::NoMemory,
            line: 0,
            column: 0,
        };
    }
    let (line, column) = place(text, fault.position);
    GraphFault {
        error: fault.error,
        line,
        column,
    }
}

// The graph of a text and its canonical text, or the fault at a position.
fn read(alloc: Global, text: &[u8]) -> Result<(Graph, Vec<u8>), PlacedFault>
    ensures reads { IfOk result (λ both. Reads text.now both.0) }
    ensures spelled { IfOk result (λ both. both.1.items ≡ canonical both.0) }
    ensures cause { IfErr result (λ fault. (fault ≡ refused) ⊎ IsCause text.now fault.error fault.position) }
{
    if text.len() > MOST_TEXT {
        return Err(TOO_LARGE);
    }
    let plain = ascii(text)?;
    let tree = read_tree(alloc, plain)?;
    graph_of(alloc, &tree)
}

// The text, if all its bytes are below 128.
fn ascii(text: &[u8]) -> Result<&str, PlacedFault>
    requires { length text.now ≤ MOST_TEXT }
    ensures { MatchResult result (λ plain. IsAsciiText text.now plain.now) (λ fault. IsCause text.now fault.error fault.position) }
{
    for position in 0..text.len() {
        if text[position] >= 128 {
            return Err(PlacedFault {
                error: GraphError::NotAscii,
                position,
            });
        }
    }
    match str::from_utf8(text) {
        Ok(plain) => Ok(plain),
        // Never: each byte is below 128.
        Err(_) => Err(TOO_LARGE),
    }
}
