//! The parts of a step, and what a statement of a part begins with.
ghost use Rattle.std.specs.Prelude.{◌≡◌};
ghost use Rattle.syntax.specs.Tokens.{lexeme_of, word as a_word};
ghost use Rattle.syntax.specs.Statements.{Begins, part_of, part_word};

use crate::{Token, Word};

/// A part of a step.
#[derive(Clone, Copy)]
pub(crate) enum Part {
    Reading,
    Writing,
}

/// What a statement begins with.
#[derive(Clone, Copy)]
pub(crate) enum Beginning {
    Assignment,
    Choice,
    Repetition,
    /// A `get` in the part that reads, a `put` in the part that writes.
    Own,
    Other,
}

impl Part {
    /// The word that begins this part.
    pub(crate) fn word(self) -> Word
        ensures { result ≡ part_word (part_of self) }
    {
        match self {
            Part::Reading => Word::Read,
            Part::Writing => Word::Write,
        }
    }

    // What kind of statement begins with this word.
    fn beginning_of(self, word: Word) -> Beginning
        ensures { Begins (part_of self) (a_word word) result }
    {
        match (self, word) {
            (_, Word::If) => Beginning::Choice,
            (_, Word::For) => Beginning::Repetition,
            (Part::Reading, Word::Get) => Beginning::Own,
            (Part::Writing, Word::Put) => Beginning::Own,
            _ => Beginning::Other,
        }
    }

    /// What kind of statement begins with this token.
    pub(crate) fn beginning(self, token: Token<'_>) -> Beginning
        ensures { Begins (part_of self) (lexeme_of token.entry) result }
    {
        match token {
            Token::Name(_) => Beginning::Assignment,
            Token::Word(word) => self.beginning_of(word),
            _ => Beginning::Other,
        }
    }
}
