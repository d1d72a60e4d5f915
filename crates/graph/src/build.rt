ghost use Rattle.std.specs.Prelude.{◌≡◌, ◌≤◌, [], length, IfOk, IfErr};
ghost use Rattle.graph.specs.declared.limits.TheConstants.{MOST_TEXT};
ghost use Rattle.graph.specs.Canonical.{canonical};
ghost use Rattle.graph.specs.CheckedSteps.{IsRefusal};
ghost use Rattle.graph.specs.Faults.{tree_faults};
ghost use Rattle.graph.specs.Reads.{IsOfText};
ghost use Rattle.graph.specs.Small.{IsSmall};
ghost use Rattle.graph.specs.Tree.{IsGraphOf};

use crate::bodies::check_bodies;
use crate::canonical_text::written;
use crate::fault::{PlacedFault, TOO_LARGE};
use crate::graph::Graph;
use crate::parts::Parts;
use crate::prescriptions::prescriptions;
use crate::resolved::{Resolved, resolve};
use crate::{MOST_TEXT, canonical_reads, reads_textual};
use std::alloc::Global;
use syntax::Tree;

/// The graph of a text's tree, and its canonical text; or the first fault: those of names and relations come first, by
/// position, then those of bodies, and last a canonical text that is too long.
pub(crate) fn graph_of(alloc: Global, tree: &Tree<'_>) -> Result<(Graph, Vec<u8>), PlacedFault>
    requires small { IsSmall tree.now }
    requires text { IsOfText tree.now }
    ensures graph { IfOk result (λ both. (tree_faults tree.now ≡ []) × IsGraphOf tree.now both.0) }
    ensures spelled { IfOk result (λ both. (both.1.items ≡ canonical both.0) × (length (canonical both.0) ≤ MOST_TEXT)) }
    ensures fault { IfErr result (IsRefusal tree.now) }
{
    canonical_reads();
    reads_textual();
    let resolved = resolve(alloc, tree)?;
    let steps = check_bodies(alloc, tree, &resolved)?;
    let prescribes = prescriptions(alloc, resolved.tags.numbered.len(), &steps)?;
    let parts = Parts {
        items: &resolved.items.numbered,
        tags: &resolved.tags.numbered,
        steps: &steps,
        environment_item_puts: &resolved.relations.environment_item_puts,
        environment_tag_puts: &resolved.relations.environment_tag_puts,
        environment_gets: &resolved.relations.environment_gets,
    };
    let text = written(alloc, &parts)?;
    if text.len() > MOST_TEXT {
        return Err(TOO_LARGE);
    }
    let Resolved {
        items,
        tags,
        relations,
    } = resolved;
    let (environment_item_puts, environment_tag_puts, environment_gets) =
        relations.into_environment();
    let graph = Graph {
        items: items.into_numbered(),
        tags: tags.into_numbered(),
        prescribes,
        steps,
        environment_item_puts,
        environment_tag_puts,
        environment_gets,
    };
    Ok((graph, text))
}
