//! The tree of a graph text.
ghost use Rattle.std.specs.Prelude.{◌<◌, IfOk, IfErr};
ghost use Rattle.std.specs.List.{AllByRecursion};
ghost use Rattle.syntax.specs.Expected.{run, graph_expected};
ghost use Rattle.syntax.specs.Parsed.{left, Tells};
ghost use Rattle.syntax.specs.Graphs.{IsGraphRead, IsFaultOfStop};
ghost use Rattle.syntax.specs.Reading.{IsRead, HasCause};

use crate::cursor::Cursor;
use crate::lexer::tokens;
use crate::preamble::{Preamble, read_preamble};
use crate::steps::steps;
use crate::stop::Stop;
use crate::{Tree, TreeError, TreeFault};
use std::alloc::Global;

// The tree of all tokens that are left.
fn whole_tree<'a>(cursor: &mut Cursor<'a>) -> Result<Tree<'a>, Stop>
    ensures reads { IfOk result (λ tree. IsGraphRead tree (left cursor.old)) }
    ensures stops { IfErr result (λ stop. Tells stop (left cursor.new) (run graph_expected (left cursor.old))) }
{
    let Preamble {
        declarations,
        relations,
    } = read_preamble(cursor)?;
    let steps = steps(cursor)?;
    if !cursor.is_at_end() {
        return Err(Stop::Syntax);
    }
    Ok(Tree {
        declarations,
        relations,
        steps,
    })
}

// The fault of a text of `end` bytes, if the parser stops at this cursor with `stop`.
fn fault_of(cursor: &Cursor<'_>, stop: Stop, end: usize) -> TreeFault
    ensures { IsFaultOfStop stop end (left cursor.now) result }
{
    match stop {
        Stop::Syntax => TreeFault {
            error: TreeError::Syntax,
            place: cursor.place_or(end),
        },
        Stop::TooLarge(place) => TreeFault {
            error: TreeError::TooLarge,
            place,
        },
        Stop::NoMemory => TreeFault {
            error: TreeError::NoMemory,
            place: 0,
        },
    }
}

/// The tree of a graph text. The text is ASCII.
///
/// `Syntax` comes at the first token that cannot follow the tokens before it in any graph text, and at the end of a text
/// that ends too early. `TooLarge` comes at the place of a limit that is passed before that: a name too many or too long, a
/// bracket or a brace too many, or an expression that is too deep, at its first token, once it is whole. A collection too
/// many is reported at its name, once what follows shows that it is declared. `NoMemory` comes if memory is refused.
#[tactic(auto, using(crate::proofs::Natural::natural_tokens))]
pub fn read_tree<'a>(alloc: Global, text: &'a str) -> Result<Tree<'a>, TreeFault>
    requires ascii { AllByRecursion (λ byte. byte < 128) text.now }
    ensures read { IfOk result (λ tree. IsRead text.now tree) }
    ensures fault { IfErr result (λ fault. HasCause text.now fault) }
{
    let tokens = tokens(alloc, text)?;
    let mut cursor = Cursor::begin(alloc, tokens);
    match whole_tree(&mut cursor) {
        Ok(tree) => Ok(tree),
        Err(stop) => Err(fault_of(&cursor, stop, text.len())),
    }
}
