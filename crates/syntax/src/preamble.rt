//! What comes before the steps of a text.
ghost use Rattle.std.specs.Prelude.{◌∷◌, [], IfOk, IfErr};
ghost use Rattle.syntax.specs.Expected.{declarations as some_declarations, steps};
ghost use Rattle.syntax.specs.Parsed.{left, Stops};
ghost use Rattle.syntax.specs.Declarations.{IsPreamble};

use crate::cursor::Cursor;
use crate::declarations::declarations;
use crate::relations::next_relation;
use crate::stop::Stop;
use crate::{Declaration, Relation};

/// Declarations, and the relations after them.
#[derive(Drop)]
pub(crate) struct Preamble<'a> {
    pub(crate) declarations: Vec<Declaration<'a>>,
    pub(crate) relations: Vec<Relation<'a>>,
}

/// All declarations and relations from the beginning of a text.
pub(crate) fn read_preamble<'a>(cursor: &mut Cursor<'a>) -> Result<Preamble<'a>, Stop>
    ensures reads { IfOk result (λ preamble. IsPreamble (steps 0 ∷ []) preamble (left cursor.old) (left cursor.new)) }
    ensures stops { IfErr result (Stops (some_declarations 0 0 ∷ []) (left cursor.old) (left cursor.new)) }
{
    let Preamble {
        declarations,
        mut relations,
    } = declarations(cursor)?;
    loop {
        match next_relation(cursor)? {
            Some(relation) => {
                relations.reserve(1)?;
                relations.push_reserved(relation);
            }
            None => {
                return Ok(Preamble {
                    declarations,
                    relations,
                });
            }
        }
    }
}
