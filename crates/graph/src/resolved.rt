ghost use Rattle.std.specs.Prelude.{MatchResult};
ghost use Rattle.graph.specs.Faults.{tree_faults};
ghost use Rattle.graph.specs.Placed.{IsFirst};
ghost use Rattle.graph.specs.Resolved.{Resolves};
ghost use Rattle.graph.specs.Small.{IsSmall};

use crate::declarations::{Collections, declare_all};
use crate::fault::PlacedFault;
use crate::relations::{Numbers, Relations, relate_all};
use crate::steps::{check_steps, number_steps};
use std::alloc::Global;
use syntax::Tree;

/// A tree without a fault in its names and relations: its collections by their numbers, and its relations.
#[derive(Drop)]
pub(crate) struct Resolved<'a> {
    pub(crate) items: Collections<'a>,
    pub(crate) tags: Collections<'a>,
    pub(crate) relations: Relations,
}

/// The collections and the relations of a tree; or its first fault by position, leaving aside the bodies of its steps.
pub(crate) fn resolve<'a>(alloc: Global, tree: &Tree<'a>) -> Result<Resolved<'a>, PlacedFault>
    requires { IsSmall tree.now }
    ensures { MatchResult result (Resolves tree.now) (IsFirst (tree_faults tree.now)) }
{
    let (items, tags) = declare_all(alloc, &tree.declarations)?;
    let steps = number_steps(alloc, &tree.steps)?;
    let numbers = Numbers {
        items: &items.numbered,
        tags: &tags.numbered,
        steps: &steps,
    };
    let relations = relate_all(alloc, &numbers, tree.steps.len(), &tree.relations)?;
    check_steps(alloc, &tags.declared, &relations, &steps, &tree.steps)?;
    Ok(Resolved {
        items,
        tags,
        relations,
    })
}
