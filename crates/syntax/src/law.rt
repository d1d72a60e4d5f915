ghost use Rattle.std.specs.Prelude.{◌≡◌};
ghost use Rattle.syntax.specs.declared.limits.TheConstants.{MOST_NAME_BYTES, MOST_DEPTH, MOST_BRACKETS, MOST_BRACES};
ghost use Rattle.syntax.specs.MayCome.{ExpressionsMayCome, KeysMayCome, GraphsAreJudged};
ghost use Rattle.syntax.specs.Reading.{ReadWithoutFault};
ghost use Rattle.syntax.specs.Tokens.{TokensOnce, TokensExample};
ghost use Rattle.syntax.specs.Unambiguous.{OneDerivation};

/// The limits of the grammar, as numbers.
pub fn grammar_limits()
    ensures name_bytes { MOST_NAME_BYTES ≡ 32 }
    ensures depth { MOST_DEPTH ≡ 64 }
    ensures brackets { MOST_BRACKETS ≡ 64 }
    ensures braces { MOST_BRACES ≡ 16 }
{}

/// A text has at most one list of tokens; and a worked example.
pub fn tokens_once()
    ensures once { TokensOnce }
    ensures example { TokensExample }
{}

/// What the grammar derives within the limits may come, token by token: expressions, keys and whole graph texts. For a
/// graph text past the limits, a limit is reported at a place where the text passes one.
pub fn derived_may_come()
    ensures expressions { ExpressionsMayCome }
    ensures keys { KeysMayCome }
    ensures graphs { GraphsAreJudged }
{}

/// Tokens have at most one derivation of the grammar.
pub fn one_derivation()
    ensures { OneDerivation }
{}

/// A text that is in the grammar and within the limits has no fault other than `NoMemory`.
pub fn read_without_fault()
    ensures { ReadWithoutFault }
{
    tokens_once();
}
