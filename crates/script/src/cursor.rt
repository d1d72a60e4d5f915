//! The tokens of a line that are left, and methods that take one token.
use crate::key::number;
use crate::token::Token;

/// The tokens that are left.
#[derive(Drop)]
pub(crate) struct Cursor<'t, 'a> {
    pub(crate) tokens: &'t [Token<'a>],
}

impl<'t, 'a> Cursor<'t, 'a> {
    ghost use Rattle.std.specs.Prelude.{◌≡◌, ◌<◌, ◌≤◌, [], length, MatchBool, MatchOption, None, Some, true};
    ghost use Rattle.script.specs.Lexemes.{IsSoundCursor, left};
    ghost use Rattle.script.specs.Requests.{TakesNumber, TakesSign, word_of};

    /// Takes this sign, if it is the next token.
    pub(crate) fn takes(&mut self, sign: u8) -> bool
        requires { IsSoundCursor self.old }
        ensures taken { TakesSign sign result (left self.old) (left self.new) }
        ensures sound { IsSoundCursor self.new }
        ensures fewer { result ≡ true → length (left self.new) < length (left self.old) }
    {
        match self.tokens {
            [Token::Sign(other), more @ ..] => {
                if *other == sign {
                    self.tokens = more;
                    return true;
                }
                false
            }
            _ => false,
        }
    }

    /// Takes a word, if it is the next token.
    pub(crate) fn word(&mut self) -> Option<&'a str>
        requires { IsSoundCursor self.old }
        ensures taken { MatchOption result (word_of (left self.old) ≡ None) (λ word. word_of (left self.old) ≡ Some (word.now, left self.new)) }
        ensures sound { IsSoundCursor self.new }
    {
        match self.tokens {
            [Token::Word(word), more @ ..] => {
                self.tokens = more;
                Some(word)
            }
            _ => None,
        }
    }

    /// Takes a number, if it is the next token; the inner `None` means that the number does not fit in 64 bits.
    pub(crate) fn number(&mut self) -> Option<Option<i64>>
        requires { IsSoundCursor self.old }
        ensures taken { TakesNumber result (left self.old) (left self.new) }
        ensures sound { IsSoundCursor self.new }
        ensures fewer { length (left self.new) ≤ length (left self.old) }
    {
        match self.tokens {
            [Token::Number(text), more @ ..] => {
                self.tokens = more;
                Some(number(text))
            }
            _ => None,
        }
    }

    /// Whether no token is left.
    pub(crate) fn is_at_end(&self) -> bool
        ensures { MatchBool result (left self.now ≡ []) ((left self.now ≡ []) → ⊥) }
    {
        self.tokens.is_empty()
    }
}
