ghost use Rattle.std.specs.Prelude.{◌≡◌, ◌++◌, ◌∷◌, [], IfOk, OnOk};
ghost use Rattle.graph.specs.Faults.{declaration_faults};
ghost use Rattle.graph.specs.Collected.{AreCollected, again, of_name, collections_of};
ghost use Rattle.graph.specs.Placed.{Reports};
ghost use Rattle.graph.specs.Numbered.{names_numbered};
ghost use Rattle.graph.specs.Tree.{items_of, tags_of};

use crate::fault::{GraphError, PlacedFault};
use crate::numbered::Numbered;
use std::alloc::Global;
use steptree::{Declared, Name};
use syntax::Declaration;

/// The collections of one kind: as they are declared, and by their numbers and names.
pub(crate) struct Collections<'a> {
    pub(crate) declared: Vec<Declared<'a>>,
    pub(crate) numbered: Numbered<usize>,
}

impl<'a> Drop for Collections<'a> {
    // Written by hand, so that it is one call wherever collections are dropped.
    fn drop(self) {
        let Collections {
            declared: _,
            numbered: _,
        } = self;
    }
}

impl<'a> Collections<'a> {
    /// Their names and how many components each has, by their numbers.
    pub(crate) fn into_numbered(self) -> Numbered<usize>
        ensures { result ≡ self.entry.numbered }
    {
        let Collections {
            declared: _,
            numbered,
        } = self;
        numbered
    }

    /// No collections.
    fn new(alloc: Global) -> Self
        ensures declared { result.declared.items ≡ [] }
        ensures numbered { result.numbered ≡ [] }
    {
        Collections {
            declared: Vec::new(alloc),
            numbered: Numbered::new(alloc),
        }
    }

    /// Adds a collection; it is a fault if its name is already there.
    fn declare(&mut self, name: Name<'a>, components: usize) -> Result<(), PlacedFault>
        ensures faults { Reports (again (names_numbered self.old.numbered) name.entry) result }
        ensures declared { OnOk result (self.new.declared.items ≡ self.old.declared.items ++ of_name name.entry components ∷ []) }
        ensures numbered { OnOk result (collections_of self.new ≡ collections_of self.old ++ of_name name.entry components ∷ []) }
    {
        if self.numbered.number(name.text).is_some() {
            return Err(PlacedFault {
                error: GraphError::Redeclared,
                position: name.place,
            });
        }
        self.declared.reserve(1)?;
        self.numbered.push(name.text, components)?;
        self.declared.push_reserved(Declared {
            name: name.text,
            components,
        });
        Ok(())
    }
}

/// The items and the tags of these declarations, each kind by its numbers; or the first name that its kind already has.
pub(crate) fn declare_all<'a>(
    alloc: Global,
    declarations: &[Declaration<'a>],
) -> Result<(Collections<'a>, Collections<'a>), PlacedFault>
    ensures faults { Reports (declaration_faults [] [] declarations.now) result }
    ensures items { IfOk result (λ both. AreCollected (items_of declarations.now) both.0) }
    ensures tags { IfOk result (λ both. AreCollected (tags_of declarations.now) both.1) }
{
    let mut items = Collections::new(alloc);
    let mut tags = Collections::new(alloc);
    for declaration in declarations {
        match declaration {
            Declaration::Item { name, components } => items.declare(*name, *components)?,
            Declaration::Tag { name, components } => tags.declare(*name, *components)?,
        }
    }
    Ok((items, tags))
}
