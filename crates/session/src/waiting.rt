//! The order of the instances that wait.
ghost use Rattle.std.specs.Prelude.{◌≡◌, [], get_or};
ghost use Rattle.graph.specs.Prescribed.{names_of_steps};
ghost use Rattle.std.specs.List.Sorted.{IsPermutation, IsSortedBy};
ghost use Rattle.std.specs.Ordering.{is_lt};
ghost use Rattle.session.specs.Answers.{instance_cmp};

use graph::Graph;
use std::cmp::Ordering;
use terms::{Addr, Inst};

/// Puts instances in the order of the names of their steps, and then of their numbers and keys.
pub(crate) fn sort_by_name(graph: &Graph, waiting: &mut Vec<(Inst, Addr)>)
    ensures same { IsPermutation waiting.old.items waiting.new.items }
    ensures rises { IsSortedBy (λ one two. is_lt (instance_cmp graph.now one.0 two.0)) waiting.new.items }
{
    waiting.sort_unstable_by(|one, two| compare(graph, &one.0, &two.0));
}

// Compares two instances by the names of their steps, and then by their numbers and keys.
fn compare(graph: &Graph, one: &Inst, two: &Inst) -> Ordering
    ensures { result ≡ instance_cmp graph.now one.now two.now }
{
    name(graph, one).cmp(name(graph, two)).then(one.cmp(two))
}

// The name of the step of an instance.
fn name<'a>(graph: &'a Graph, instance: &Inst) -> &'a str
    ensures { result.now ≡ get_or (names_of_steps graph.now.steps) instance.now.collection.0 [] }
{
    graph.step_name(instance.collection).unwrap_or("")
}
