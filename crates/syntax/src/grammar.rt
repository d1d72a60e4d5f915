ghost use Rattle.syntax.specs.GraphTexts.{GrammarExample};
ghost use Rattle.syntax.specs.Expected.{ExpectedExample};

/// Worked examples of the grammar: a derivation, and what may come next.
pub fn grammar_example()
    ensures derived { GrammarExample }
    ensures expected { ExpectedExample }
{}
