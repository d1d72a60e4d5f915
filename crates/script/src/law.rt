ghost use Rattle.std.specs.Prelude.{◌≡◌};
ghost use Rattle.script.specs.Forms.{FormsOnce};
ghost use Rattle.script.specs.Script.{ScriptsOnce};
ghost use Rattle.script.specs.Tokens.{TokensExample, TokensOnce};
ghost use Rattle.script.specs.declared.parser.TheConstants.{MOST_BYTES};

/// The greatest number of bytes of a script, as a number.
pub fn script_limit()
    ensures { MOST_BYTES ≡ 1048576 }
{}

/// A line has at most one list of tokens; and worked examples.
pub fn tokens_once()
    ensures once { TokensOnce }
    ensures example { TokensExample }
{}

/// A line has at most one form.
pub fn forms_once()
    ensures { FormsOnce }
{
    tokens_once();
}

/// A text that is a script has no fault but `NoMemory`, and only one list of commands.
pub fn scripts_once()
    ensures { ScriptsOnce }
{
    forms_once();
}
