//! The signs, of two characters and of one.
ghost use Rattle.std.specs.Prelude.{◌≡◌, ◌≢◌, [], ◌∷◌, MatchOption};
ghost use Rattle.syntax.specs.Tokens.{symbol_text};
ghost use Rattle.syntax.specs.declared.token.Symbol.{Symbol};

use crate::Symbol;

/// The sign of these two characters.
pub(crate) fn double_symbol(first: u8, second: u8) -> Option<Symbol>
    ensures { MatchOption result ((symbol : Symbol) → symbol_text symbol ≢ first ∷ second ∷ [])
        (λ symbol. symbol_text symbol ≡ first ∷ second ∷ []) }
{
    match (first, second) {
        (b':', b':') => Some(Symbol::DoubleColon),
        (b'-', b'>') => Some(Symbol::Arrow),
        (b'.', b'.') => Some(Symbol::DoubleDot),
        (b'=', b'=') => Some(Symbol::Equal),
        (b'!', b'=') => Some(Symbol::NotEqual),
        (b'<', b'=') => Some(Symbol::LessOrEqual),
        (b'>', b'=') => Some(Symbol::GreaterOrEqual),
        _ => None,
    }
}

/// The sign of this one character.
pub(crate) fn single_symbol(first: u8) -> Option<Symbol>
    ensures { MatchOption result ((symbol : Symbol) → symbol_text symbol ≢ first ∷ [])
        (λ symbol. symbol_text symbol ≡ first ∷ []) }
{
    match first {
        b'[' => Some(Symbol::OpenBracket),
        b']' => Some(Symbol::CloseBracket),
        b'(' => Some(Symbol::OpenRound),
        b')' => Some(Symbol::CloseRound),
        b'<' => Some(Symbol::Less),
        b'>' => Some(Symbol::Greater),
        b'{' => Some(Symbol::OpenBrace),
        b'}' => Some(Symbol::CloseBrace),
        b':' => Some(Symbol::Colon),
        b';' => Some(Symbol::Semicolon),
        b',' => Some(Symbol::Comma),
        b'=' => Some(Symbol::Assign),
        b'+' => Some(Symbol::Plus),
        b'-' => Some(Symbol::Minus),
        b'*' => Some(Symbol::Star),
        b'/' => Some(Symbol::Slash),
        b'%' => Some(Symbol::Percent),
        _ => None,
    }
}
