//! Steps: a name, the names of the parameters and the variables, and the two parts.
ghost use Rattle.std.specs.Prelude.{◌≡◌, ◌<◌, ◌∷◌, [], IfOk, IfErr, OnOk};
ghost use Rattle.steptree.specs.declared.sheet.TheConstants.{MOST_COLLECTIONS};
ghost use Rattle.syntax.specs.Limits.{name_limits};
ghost use Rattle.syntax.specs.Expected.{step_name as name_of_step, steps as some_steps};
ghost use Rattle.syntax.specs.Parsed.{left, named_of, ReadsName, Stops};
ghost use Rattle.syntax.specs.Statements.{part_of};
ghost use Rattle.syntax.specs.Steps.{part_expected, IsPartRead, step_expected, IsStepRead, AreStepsRead};

use crate::blocks::statements;
use crate::cursor::Cursor;
use crate::part::Part;
use crate::step_names::{parameters, variables};
use crate::stop::Stop;
use crate::{Symbol, Word};
use steptree::{MOST_COLLECTIONS, Name, NamedBlock, Step};

// A part of a step, with its word and its braces.
fn part_block<'a>(cursor: &mut Cursor<'a>, part: Part) -> Result<NamedBlock<'a>, Stop>
    ensures reads { IfOk result (λ tree. IsPartRead (part_of part) tree (left cursor.old) (left cursor.new)) }
    ensures stops { IfErr result (Stops (part_expected (part_of part)) (left cursor.old) (left cursor.new)) }
{
    cursor.keyword(part.word())?;
    cursor.sign(Symbol::OpenBrace)?;
    let block = statements(cursor, part, 0)?;
    cursor.sign(Symbol::CloseBrace)?;
    Ok(block)
}

// The name of a step, with `before` steps before it.
fn step_name<'a>(cursor: &mut Cursor<'a>, before: usize) -> Result<Name<'a>, Stop>
    ensures reads { IfOk result (λ name. ReadsName (name_of_step before) name (left cursor.old) (left cursor.new)) }
    ensures within { IfOk result (λ name. name_limits (named_of name) ≡ []) }
    ensures room { OnOk result (before < MOST_COLLECTIONS) }
    ensures stops { IfErr result (Stops (name_of_step before ∷ []) (left cursor.old) (left cursor.new)) }
{
    let name = cursor.counted_name(before >= MOST_COLLECTIONS)?;
    Ok(name)
}

// A step after its word, with `before` steps before it.
fn step<'a>(cursor: &mut Cursor<'a>, before: usize) -> Result<Step<'a>, Stop>
    ensures reads { IfOk result (λ step. IsStepRead before step (left cursor.old) (left cursor.new)) }
    ensures stops { IfErr result (Stops (step_expected before) (left cursor.old) (left cursor.new)) }
{
    let name = step_name(cursor, before)?;
    cursor.sign(Symbol::OpenRound)?;
    let parameters = parameters(cursor)?;
    cursor.sign(Symbol::OpenBrace)?;
    let variables = variables(cursor, parameters.len())?;
    let read = part_block(cursor, Part::Reading)?;
    let write = part_block(cursor, Part::Writing)?;
    cursor.sign(Symbol::CloseBrace)?;
    Ok(Step {
        name,
        parameters,
        variables,
        read,
        write,
    })
}

/// All steps from here on.
pub(crate) fn steps<'a>(cursor: &mut Cursor<'a>) -> Result<Vec<Step<'a>>, Stop>
    ensures reads { IfOk result (λ steps. AreStepsRead steps.items (left cursor.old) (left cursor.new)) }
    ensures stops { IfErr result (Stops (some_steps 0 ∷ []) (left cursor.old) (left cursor.new)) }
{
    let mut steps = Vec::new(cursor.alloc);
    while cursor.takes_word(Word::Step) {
        let step = step(cursor, steps.len())?;
        steps.reserve(1)?;
        steps.push_reserved(step);
    }
    Ok(steps)
}
