//! The reserved words.
ghost use Rattle.std.specs.Prelude.{◌≡◌, ◌≢◌, MatchOption};
ghost use Rattle.syntax.specs.Tokens.{word_text};
ghost use Rattle.syntax.specs.declared.token.Word.{Word};

use crate::Word;

/// The reserved word that this text is, if it is one.
pub fn reserved_word(text: &str) -> Option<Word>
    ensures { MatchOption result ((kept : Word) → text.now ≢ word_text kept)
        (λ kept. text.now ≡ word_text kept) }
{
    match text.as_bytes() {
        b"if" => Some(Word::If),
        b"in" => Some(Word::In),
        b"env" => Some(Word::Env),
        b"var" => Some(Word::Var),
        b"get" => Some(Word::Get),
        b"put" => Some(Word::Put),
        b"for" => Some(Word::For),
        b"step" => Some(Word::Step),
        b"read" => Some(Word::Read),
        b"else" => Some(Word::Else),
        b"write" => Some(Word::Write),
        _ => None,
    }
}
