//! The names of a step: its parameters and its variables.
ghost use Rattle.std.specs.Prelude.{◌<◌, ◌≤◌, ◌-◌, ◌∷◌, [], length, IfOk, IfErr, OnOk};
ghost use Rattle.terms.specs.declared.key.TheConstants.{MAX_COMPONENTS};
ghost use Rattle.steptree.specs.declared.slot.TheConstants.{MOST_NAMES};
ghost use Rattle.syntax.specs.Expected.{parameters as some_parameters, variables as some_variables};
ghost use Rattle.syntax.specs.Parsed.{left, Stops};
ghost use Rattle.syntax.specs.StepNames.{TakesOn, StopsOn, AreListed, StopsInList, NoParameters, AreParameters, AreVariables};

use crate::cursor::Cursor;
use crate::stop::Stop;
use crate::{Symbol, Token, Word};
use steptree::{MOST_NAMES, Name};
use terms::MAX_COMPONENTS;

// Takes the token after a name: true for a comma, before one more name; false for `close`, which ends the list.
fn goes_on(cursor: &mut Cursor<'_>, close: Symbol) -> Result<bool, Stop>
    ensures reads { IfOk result (λ more. TakesOn close more (left cursor.old) (left cursor.new)) }
    ensures fewer { OnOk result (length (left cursor.new) < length (left cursor.old)) }
    ensures stops { IfErr result (StopsOn close (left cursor.old) (left cursor.new)) }
{
    let Token::Symbol(sign) = cursor.front() else {
        return Err(Stop::Syntax);
    };
    if sign == Symbol::Comma {
        cursor.advance();
        return Ok(true);
    }
    if sign == close {
        cursor.advance();
        return Ok(false);
    }
    Err(Stop::Syntax)
}

// At least one name and at most `most` names, up to the sign `close`.
fn listed<'a>(cursor: &mut Cursor<'a>, most: usize, close: Symbol) -> Result<Vec<Name<'a>>, Stop>
    ensures reads { IfOk result (λ names. AreListed most close names.items (left cursor.old) (left cursor.new)) }
    ensures few { IfOk result (λ names. length names.items ≤ most) }
    ensures fewer { OnOk result (length (left cursor.new) < length (left cursor.old)) }
    ensures stops { IfErr result (StopsInList most close (left cursor.old) (left cursor.new)) }
{
    let mut names = Vec::new(cursor.alloc);
    loop {
        let name = cursor.counted_name(names.len() >= most)?;
        names.reserve(1)?;
        names.push_reserved(name);
        if !goes_on(cursor, close)? {
            return Ok(names);
        }
    }
}

// Takes the closing bracket if there are no parameters, and returns whether there are none.
fn no_parameters(cursor: &mut Cursor<'_>) -> bool
    ensures taken { NoParameters result (left cursor.old) (left cursor.new) }
{
    match cursor.front() {
        Token::Symbol(sign) if sign == Symbol::CloseRound => {
            cursor.advance();
            true
        }
        _ => false,
    }
}

/// The parameters of a step after their opening bracket, with the closing one.
pub(crate) fn parameters<'a>(cursor: &mut Cursor<'a>) -> Result<Vec<Name<'a>>, Stop>
    ensures reads { IfOk result (λ names. AreParameters names.items (left cursor.old) (left cursor.new)) }
    ensures few { IfOk result (λ names. length names.items ≤ MAX_COMPONENTS) }
    ensures stops { IfErr result (Stops (some_parameters ∷ []) (left cursor.old) (left cursor.new)) }
{
    if no_parameters(cursor) {
        return Ok(Vec::new(cursor.alloc));
    }
    listed(cursor, MAX_COMPONENTS, Symbol::CloseRound)
}

/// The variables of a step that has `before` names before them.
pub(crate) fn variables<'a>(cursor: &mut Cursor<'a>, before: usize) -> Result<Vec<Name<'a>>, Stop>
    ensures reads { IfOk result (λ names. AreVariables before names.items (left cursor.old) (left cursor.new)) }
    ensures few { IfOk result (λ names. length names.items ≤ MOST_NAMES - before) }
    ensures stops { IfErr result (Stops (some_variables before ∷ []) (left cursor.old) (left cursor.new)) }
{
    if !cursor.takes_word(Word::Var) {
        return Ok(Vec::new(cursor.alloc));
    }
    let most = MOST_NAMES.saturating_sub(before);
    listed(cursor, most, Symbol::Semicolon)
}
