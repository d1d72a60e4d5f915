//! A cursor over the tokens of a text, and the functions that take one token.
ghost use Rattle.std.specs.Prelude.{◌≡◌, true};
ghost use Rattle.syntax.specs.Natural.{all_natural};

use crate::stop::Stop;
use crate::{MOST_NAME_BYTES, Placed, Symbol, Token, Word};
use std::alloc::Global;
use steptree::Name;

/// The tokens of a text, how many of them were taken, and the allocator of what is read.
#[derive(Drop)]
pub(crate) struct Cursor<'a> {
    pub(crate) alloc: Global,
    pub(crate) tokens: Vec<Placed<'a>>,
    pub(crate) passed: usize,
    ghost natural: { all_natural tokens.items ≡ true },
}

impl<'a> Cursor<'a> {
    ghost use Rattle.std.specs.Prelude.{◌∷◌, false, [], ◌≤◌, ◌<◌, ◌==◌, length, map, get_or, IfOk, IfErr, OnOk};
    ghost use Rattle.syntax.specs.Tokens.{spots_of, lexeme_of, word, symbol};
    ghost use Rattle.syntax.specs.Limits.{name_limits};
    ghost use Rattle.syntax.specs.Expected.{exactly, keyword as reserved, a_name};
    ghost use Rattle.syntax.specs.NameLists.{TakesName, StopsAtName};
    ghost use Rattle.syntax.specs.Parsed.{left, named_of, ReadsToken, ReadsName, Stops, TakenIf, TakenIfWord};
    ghost use Rattle.syntax.specs.Front.{front_of, behind_front};

    /// A cursor before the first of these tokens, which are those of a text.
    pub(crate) fn begin(alloc: Global, tokens: Vec<Placed<'a>>) -> Cursor<'a>
        requires { all_natural tokens.items ≡ true }
        ensures { left result ≡ spots_of tokens.entry.items }
    {
        Cursor {
            alloc,
            tokens,
            passed: 0,
        }
    }

    /// The next token; at the end an unknown one.
    pub(crate) fn front(&self) -> Token<'a>
        ensures { lexeme_of result ≡ (front_of (left self.now)).0 }
    {
        match self.tokens.get(self.passed) {
            Some(placed) => placed.token,
            None => Token::Unknown,
        }
    }

    /// The token behind the next one; where there is none, an unknown one.
    pub(crate) fn second(&self) -> Token<'a>
        ensures { lexeme_of result ≡ (front_of (behind_front (left self.now))).0 }
    {
        match self.tokens.get(self.passed..) {
            Some([_, placed, ..]) => placed.token,
            _ => Token::Unknown,
        }
    }

    /// The position of the next token; 0 at the end.
    pub(crate) fn place(&self) -> usize
        ensures { result ≡ (front_of (left self.now)).1 }
    {
        match self.tokens.get(self.passed) {
            Some(placed) => placed.place,
            None => 0,
        }
    }

    /// The position of the next token; `end` if no token is left.
    pub(crate) fn place_or(&self, end: usize) -> usize
        ensures { result ≡ get_or (map (λ spot. spot.1) (left self.now)) 0 end }
    {
        match self.tokens.get(self.passed) {
            Some(placed) => placed.place,
            None => end,
        }
    }

    /// Whether no token is left.
    pub(crate) fn is_at_end(&self) -> bool
        ensures { result ≡ (length (left self.now) == 0) }
    {
        self.passed >= self.tokens.len()
    }

    /// Moves past the next token.
    pub(crate) fn advance(&mut self)
        ensures { left self.new ≡ behind_front (left self.old) }
    {
        if self.passed < self.tokens.len() {
            self.passed += 1;
        }
    }

    /// Takes this sign.
    pub(crate) fn sign(&mut self, sign: Symbol) -> Result<(), Stop>
        ensures reads { OnOk result (ReadsToken (exactly sign) (symbol sign) (left self.old) (left self.new)) }
        ensures stops { IfErr result (Stops (exactly sign ∷ []) (left self.old) (left self.new)) }
    {
        match self.front() {
            Token::Symbol(other) if other == sign => {
                self.advance();
                Ok(())
            }
            _ => Err(Stop::Syntax),
        }
    }

    /// Takes this reserved word.
    pub(crate) fn keyword(&mut self, keyword: Word) -> Result<(), Stop>
        ensures reads { OnOk result (ReadsToken (reserved keyword) (word keyword) (left self.old) (left self.new)) }
        ensures stops { IfErr result (Stops (reserved keyword ∷ []) (left self.old) (left self.new)) }
    {
        match self.front() {
            Token::Word(other) if other == keyword => {
                self.advance();
                Ok(())
            }
            _ => Err(Stop::Syntax),
        }
    }

    /// Takes a name of at most `MOST_NAME_BYTES` bytes.
    pub(crate) fn name(&mut self) -> Result<Name<'a>, Stop>
        ensures reads { IfOk result (λ name. ReadsName a_name name (left self.old) (left self.new)) }
        ensures within { IfOk result (λ name. name_limits (named_of name) ≡ []) }
        ensures stops { IfErr result (Stops (a_name ∷ []) (left self.old) (left self.new)) }
    {
        let place = self.place();
        match self.front() {
            Token::Name(text) => {
                if text.len() > MOST_NAME_BYTES {
                    return Err(Stop::TooLarge(place));
                }
                self.advance();
                Ok(Name { text, place })
            }
            _ => Err(Stop::Syntax),
        }
    }

    /// Takes this sign if it is the next token, and returns whether it was.
    pub(crate) fn takes(&mut self, sign: Symbol) -> bool
        ensures taken { TakenIf sign result (left self.old) (left self.new) }
        ensures fewer { length (left self.new) ≤ length (left self.old) }
    {
        match self.front() {
            Token::Symbol(other) if other == sign => {
                self.advance();
                true
            }
            _ => false,
        }
    }

    /// Takes this reserved word if it is the next token, and returns whether it was.
    pub(crate) fn takes_word(&mut self, keyword: Word) -> bool
        ensures taken { TakenIfWord keyword result (left self.old) (left self.new) }
        ensures fewer { length (left self.new) ≤ length (left self.old) }
    {
        match self.front() {
            Token::Word(other) if other == keyword => {
                self.advance();
                true
            }
            _ => false,
        }
    }

    /// Takes a name, unless `full` says that there is no room for one.
    pub(crate) fn counted_name(&mut self, full: bool) -> Result<Name<'a>, Stop>
        ensures reads { IfOk result (λ name. TakesName full name (left self.old) (left self.new)) }
        ensures within { IfOk result (λ name. name_limits (named_of name) ≡ []) }
        ensures room { OnOk result (full ≡ false) }
        ensures fewer { OnOk result (length (left self.new) < length (left self.old)) }
        ensures stops { IfErr result (StopsAtName full (left self.old) (left self.new)) }
    {
        let place = self.place();
        match self.front() {
            Token::Name(text) => {
                if text.len() > MOST_NAME_BYTES || full {
                    return Err(Stop::TooLarge(place));
                }
                self.advance();
                Ok(Name { text, place })
            }
            _ => Err(Stop::Syntax),
        }
    }
}
