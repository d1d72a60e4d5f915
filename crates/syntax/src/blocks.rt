//! Blocks: statements one after another, and the blocks inside them.
ghost use Rattle.std.specs.Prelude.{◌<◌, ◌∷◌, [], IfOk, IfErr, OnOk};
ghost use Rattle.syntax.specs.declared.limits.TheConstants.{MOST_BRACES};
ghost use Rattle.syntax.specs.Expected.{statements as some_statements, nested_brace, nested as nested_rest, or_else};
ghost use Rattle.syntax.specs.Parsed.{left, Stops};
ghost use Rattle.syntax.specs.Statements.{part_of, assignment_expected, condition_expected, choice_expected, repetition_expected, own_expected};
ghost use Rattle.syntax.specs.Statements.{IsAssignmentRead, IsOwnRead, IsConditionRead, IsBraceRead, IsNestedRead, IsSecondRead, IsChoiceRead, IsRepetitionRead, AreRead};

use crate::cursor::Cursor;
use crate::expressions::value;
use crate::own_statements::{assignment, get, put};
use crate::part::{Beginning, Part};
use crate::stop::Stop;
use crate::{MOST_BRACES, Symbol, Token, Word};
use steptree::{Block, NamedBlock, NamedExpression, NamedStatement, Statement};

// An assignment.
fn assigned<'a>(cursor: &mut Cursor<'a>) -> Result<NamedStatement<'a>, Stop>
    ensures reads { IfOk result (λ tree. IsAssignmentRead tree (left cursor.old) (left cursor.new)) }
    ensures stops { IfErr result (Stops assignment_expected (left cursor.old) (left cursor.new)) }
{
    let variable = cursor.name()?;
    let statement = assignment(cursor, variable)?;
    Ok(Statement::Simple(statement))
}

// A statement that only this part has.
fn own<'a>(cursor: &mut Cursor<'a>, part: Part) -> Result<NamedStatement<'a>, Stop>
    ensures reads { IfOk result (λ tree. IsOwnRead (part_of part) tree (left cursor.old) (left cursor.new)) }
    ensures stops { IfErr result (Stops (own_expected (part_of part)) (left cursor.old) (left cursor.new)) }
{
    let statement = match part {
        Part::Reading => {
            cursor.keyword(Word::Get)?;
            get(cursor)
        }
        Part::Writing => {
            cursor.keyword(Word::Put)?;
            put(cursor)
        }
    }?;
    Ok(Statement::Simple(statement))
}

// The condition of an `if`, with its brackets.
fn condition<'a>(cursor: &mut Cursor<'a>) -> Result<NamedExpression<'a>, Stop>
    ensures reads { IfOk result (λ tree. IsConditionRead tree (left cursor.old) (left cursor.new)) }
    ensures stops { IfErr result (Stops condition_expected (left cursor.old) (left cursor.new)) }
{
    cursor.sign(Symbol::OpenRound)?;
    let condition = value(cursor)?;
    cursor.sign(Symbol::CloseRound)?;
    Ok(condition)
}

// The opening brace of a block, where `around` braces are open already.
fn brace(cursor: &mut Cursor<'_>, around: usize) -> Result<(), Stop>
    ensures reads { OnOk result (IsBraceRead around (left cursor.old) (left cursor.new)) }
    ensures room { OnOk result (around < MOST_BRACES) }
    ensures stops { IfErr result (Stops (nested_brace around ∷ []) (left cursor.old) (left cursor.new)) }
{
    let place = cursor.place();
    match cursor.front() {
        Token::Symbol(Symbol::OpenBrace) => {
            if around >= MOST_BRACES {
                return Err(Stop::TooLarge(place));
            }
            cursor.advance();
            Ok(())
        }
        _ => Err(Stop::Syntax),
    }
}

// A block in braces, where `around` braces are open already.
#[cycle(blocks)]
fn nested<'a>(cursor: &mut Cursor<'a>, part: Part, around: usize) -> Result<NamedBlock<'a>, Stop>
    ensures reads { IfOk result (λ tree. IsNestedRead (part_of part) around tree (left cursor.old) (left cursor.new)) }
    ensures stops { IfErr result (Stops (nested_rest (part_of part) around) (left cursor.old) (left cursor.new)) }
{
    brace(cursor, around)?;
    let block = statements(cursor, part, around + 1)?;
    cursor.sign(Symbol::CloseBrace)?;
    Ok(block)
}

// The second block of an `if`; an empty one if it has no `else`.
#[cycle(blocks)]
fn second<'a>(cursor: &mut Cursor<'a>, part: Part, around: usize) -> Result<NamedBlock<'a>, Stop>
    ensures reads { IfOk result (λ tree. IsSecondRead (part_of part) around tree (left cursor.old) (left cursor.new)) }
    ensures stops { IfErr result (Stops (or_else (part_of part) around ∷ []) (left cursor.old) (left cursor.new)) }
{
    if !cursor.takes_word(Word::Else) {
        return Ok(Block::end(cursor.alloc));
    }
    nested(cursor, part, around)
}

// An `if`, with its `else` if it has one.
#[cycle(blocks)]
fn choice<'a>(
    cursor: &mut Cursor<'a>,
    part: Part,
    around: usize,
) -> Result<NamedStatement<'a>, Stop>
    ensures reads { IfOk result (λ tree. IsChoiceRead (part_of part) around tree (left cursor.old) (left cursor.new)) }
    ensures stops { IfErr result (Stops (choice_expected (part_of part) around) (left cursor.old) (left cursor.new)) }
{
    cursor.keyword(Word::If)?;
    let condition = condition(cursor)?;
    let first = nested(cursor, part, around)?;
    let second = second(cursor, part, around)?;
    Ok(Statement::If {
        condition,
        first,
        second,
    })
}

// A `for`.
#[cycle(blocks)]
fn repetition<'a>(
    cursor: &mut Cursor<'a>,
    part: Part,
    around: usize,
) -> Result<NamedStatement<'a>, Stop>
    ensures reads { IfOk result (λ tree. IsRepetitionRead (part_of part) around tree (left cursor.old) (left cursor.new)) }
    ensures stops { IfErr result (Stops (repetition_expected (part_of part) around) (left cursor.old) (left cursor.new)) }
{
    cursor.keyword(Word::For)?;
    let variable = cursor.name()?;
    cursor.keyword(Word::In)?;
    let from = value(cursor)?;
    cursor.sign(Symbol::DoubleDot)?;
    let to = value(cursor)?;
    let block = nested(cursor, part, around)?;
    Ok(Statement::For {
        variable,
        from,
        to,
        block,
    })
}

/// The statements of a block, up to a token that begins none, where `around` braces are open already.
///
/// It loops over the statements, and calls itself for the blocks inside them.
#[cycle(blocks)]
pub(crate) fn statements<'a>(
    cursor: &mut Cursor<'a>,
    part: Part,
    around: usize,
) -> Result<NamedBlock<'a>, Stop>
    ensures reads { IfOk result (λ block. AreRead (part_of part) around block (left cursor.old) (left cursor.new)) }
    ensures stops { IfErr result (Stops (some_statements (part_of part) around ∷ []) (left cursor.old) (left cursor.new)) }
{
    let mut statements = Vec::new(cursor.alloc);
    loop {
        let statement = match part.beginning(cursor.front()) {
            Beginning::Assignment => assigned(cursor),
            Beginning::Choice => choice(cursor, part, around),
            Beginning::Repetition => repetition(cursor, part, around),
            Beginning::Own => own(cursor, part),
            Beginning::Other => return Ok(Block { statements }),
        }?;
        statements.reserve(1)?;
        statements.push_reserved(statement);
    }
}
