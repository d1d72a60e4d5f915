//! A line of a script.
ghost use Rattle.std.specs.Prelude.{◌≡◌, ◌∷◌, ◌++◌, IfErr, IfOk, MatchOption, OnOk};
ghost use Rattle.std.specs.Str.{IsAscii};
ghost use Rattle.script.specs.Answered.{IsAdded, IsAsked, IsLineError};
ghost use Rattle.script.specs.Script.{HasNoFeed};

use crate::lexer::tokenize;
use crate::names::command_of;
use crate::request::requested;
use crate::token::Token;
use crate::{Command, ScriptError, ScriptFault};
use graph::Graph;

/// The first line of a text, and what follows its line feed, if it has one.
pub(crate) fn first_line(text: &[u8]) -> (&[u8], Option<&[u8]>)
    ensures line { HasNoFeed result.0.now }
    ensures behind { MatchOption result.1 (text.now ≡ result.0.now) (λ behind. text.now ≡ result.0.now ++ 10 ∷ behind.now) }
{
    match text.iter().position(|byte| *byte == b'\n') {
        Some(place) => (&text[..place], Some(&text[place + 1..])),
        None => (text, None),
    }
}

// What the line with this number asks for, or `None` if it has no token. The tokens of the line replace those in `tokens`.
fn asked<'a>(
    graph: &Graph,
    tokens: &mut Vec<Token<'a>>,
    number: usize,
    line: &'a [u8],
) -> Result<Option<Command>, ScriptError>
    ensures asked { IfOk result (IsAsked graph.now line.now) }
    ensures refused { IfErr result (IsLineError graph.now line.now number) }
{
    let Some(text) = ascii(line) else {
        return Err(ScriptError::At(number, ScriptFault::Syntax));
    };
    tokenize(tokens, text)?;
    if tokens.is_empty() {
        return Ok(None);
    }
    match requested(tokens) {
        Some(request) => match command_of(graph, &request) {
            Ok(command) => Ok(Some(command)),
            Err(fault) => Err(ScriptError::At(number, fault)),
        },
        None => Err(ScriptError::At(number, ScriptFault::Syntax)),
    }
}

/// Reads the line with this number, and adds the command that it asks for, if it has a token.
pub(crate) fn read_line<'a>(
    graph: &Graph,
    tokens: &mut Vec<Token<'a>>,
    commands: &mut Vec<Command>,
    number: usize,
    line: &'a [u8],
) -> Result<(), ScriptError>
    ensures added { OnOk result (IsAdded graph.now line.now commands.old.items commands.new.items) }
    ensures refused { IfErr result (IsLineError graph.now line.now number) }
{
    match asked(graph, tokens, number, line)? {
        Some(command) => {
            commands.push(command)?;
            Ok(())
        }
        None => Ok(()),
    }
}

// The line as text, if all its bytes are below 128.
fn ascii(line: &[u8]) -> Option<&str>
    ensures { MatchOption result (IsAscii line.now → ⊥) (λ text. (text.now ≡ line.now) × IsAscii line.now) }
{
    if !line.is_ascii() {
        return None;
    }
    match str::from_utf8(line) {
        Ok(text) => Some(text),
        // Never: each byte is below 128.
        Err(_) => None,
    }
}
