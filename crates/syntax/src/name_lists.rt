//! Lists of names.
ghost use Rattle.std.specs.Prelude.{◌∷◌, [], IfOk, IfErr};
ghost use Rattle.syntax.specs.Expected.{component_name};
ghost use Rattle.syntax.specs.Parsed.{left, Stops};
ghost use Rattle.syntax.specs.ComponentNames.{AreNamed};

use crate::Symbol;
use crate::cursor::Cursor;
use crate::stop::Stop;
use terms::MAX_COMPONENTS;

/// How many components are named after the colon of a declaration.
pub(crate) fn component_names(cursor: &mut Cursor<'_>) -> Result<usize, Stop>
    ensures reads { IfOk result (λ count. AreNamed count (left cursor.old) (left cursor.new)) }
    ensures stops { IfErr result (Stops (component_name 0 ∷ []) (left cursor.old) (left cursor.new)) }
{
    let mut count = 0;
    loop {
        cursor.counted_name(count >= MAX_COMPONENTS)?;
        count += 1;
        if !cursor.takes(Symbol::Comma) {
            return Ok(count);
        }
    }
}
