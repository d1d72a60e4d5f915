//! The collections of which the environment may get items, in the order of their names.
ghost use Rattle.std.specs.Prelude.{◌≡◌, ◌<◌, ◌≤◌, length, map, get_or, false, true, IfNone, IfOk, IfSome};
ghost use Rattle.report.specs.Got.{AreGotBelow, IsNamed};
ghost use Rattle.report.specs.ReportText.{AreGot};

use graph::Graph;
use std::alloc::{AllocError, Global};
use terms::ItemCollection;

/// A collection with its name, if the environment may get items of it.
fn got(graph: &Graph, collection: ItemCollection) -> Option<(&str, ItemCollection)>
    ensures some { IfSome result (λ one. (one.1 ≡ collection) × IsNamed graph.now one) }
    ensures may { IfSome result (λ _. get_or graph.now.environment_gets collection.0 false ≡ true) }
    ensures none { IfNone result (collection.0 < length graph.now.items → get_or graph.now.environment_gets collection.0 false ≡ false) }
{
    if !graph.environment_may_get(collection) {
        return None;
    }
    match graph.item_name(collection) {
        Some(name) => Some((name, collection)),
        None => None,
    }
}

/// The collections of which the environment may get items, each with its name, in the order of their numbers.
fn got_by_number(alloc: Global, graph: &Graph) -> Result<Vec<(&str, ItemCollection)>, AllocError>
    ensures { IfOk result (λ list. AreGotBelow graph.now (length graph.now.items) list.items) }
{
    let count = graph.item_count() as u16;
    let mut list = Vec::with_capacity(alloc, usize::from(count))?;
    for number in 0..count {
        if let Some(one) = got(graph, ItemCollection(number)) {
            list.push_reserved(one);
        }
    }
    Ok(list)
}

/// The collections of which the environment may get items, each with its name, in the order of the names.
pub(crate) fn got_by_name(
    alloc: Global,
    graph: &Graph,
) -> Result<Vec<(&str, ItemCollection)>, AllocError>
    ensures { IfOk result (λ list. AreGot graph.now (map (λ one. one.1) list.items)) }
{
    graph.item_count();
    let mut list = got_by_number(alloc, graph)?;
    list.sort_unstable();
    Ok(list)
}
