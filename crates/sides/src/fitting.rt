ghost use Rattle.std.specs.Prelude.{◌≡◌, ◌↔◌, IsTrue};
ghost use Rattle.std.specs.List.{AllByRecursion};
ghost use Rattle.terms.specs.Facts.{tag, done};
ghost use Rattle.graph.specs.Fits.{IsPrescribed, FitsState};
ghost use Rattle.holdings.specs.Holdings.{image_of, facts_held, environment_held};
ghost use Rattle.sides.specs.Looks.{ItemFits, TagFits, InstanceFits, FaultFits, InstancesFit, PutsFit, ItemsFit};

use graph::Graph;
use holdings::{Hints, Holdings, images_of_maps};
use terms::{Addr, Inst, Producer, StepCollection, Tag, TagCollection, facts_are_told_apart};

/// Whether what is held fits a graph.
pub(crate) fn fits(holdings: &Holdings, graph: &Graph) -> bool
    ensures { IsTrue result ↔ FitsState graph.now (environment_held holdings.now) (facts_held holdings.now) }
{
    facts_are_told_apart();
    images_of_maps();
    instances_fit(holdings, graph) && puts_fit(holdings, graph)
}

// Whether the instance at fault and those that are done fit.
fn instances_fit(holdings: &Holdings, graph: &Graph) -> bool
    ensures { IsTrue result ↔ InstancesFit graph.now (image_of holdings.now) }
{
    fault_fits(holdings, graph) && done_fit(holdings, graph)
}

// Whether the items and the tags fit.
fn puts_fit(holdings: &Holdings, graph: &Graph) -> bool
    ensures { IsTrue result ↔ PutsFit graph.now (image_of holdings.now) }
{
    items_fit(holdings, graph) && tags_fit(holdings, graph)
}

// Whether the instance at fault, if there is one, is of the graph, prescribed, and not done.
fn fault_fits(holdings: &Holdings, graph: &Graph) -> bool
    ensures { IsTrue result ↔ FaultFits graph.now (facts_held holdings.now) holdings.now.fault }
{
    match holdings.fault() {
        Some((instance, _)) => {
            let hints = &mut Hints::new();
            instance_fits(holdings, graph, &instance, hints) && !is_done(holdings, &instance, hints)
        }
        None => true,
    }
}

// Whether each item fits.
fn items_fit(holdings: &Holdings, graph: &Graph) -> bool
    ensures { IsTrue result ↔ ItemsFit graph.now (image_of holdings.now) }
{
    let mut hints = Hints::new();
    for (address, (_, producer)) in holdings.items() {
        if !item_fits(holdings, graph, &address, &producer, &mut hints) {
            return false;
        }
    }
    true
}

// Whether each tag fits.
fn tags_fit(holdings: &Holdings, graph: &Graph) -> bool
    ensures { IsTrue result ↔ AllByRecursion (λ marked. TagFits graph.now marked.0 marked.1) (image_of holdings.now).tags }
{
    for ((number, key), mark) in holdings.tags() {
        let collection = TagCollection(number);
        if !tag_fits(graph, &Tag { collection, key }, mark) {
            return false;
        }
    }
    true
}

// Whether each done instance fits.
fn done_fit(holdings: &Holdings, graph: &Graph) -> bool
    ensures { IsTrue result ↔ AllByRecursion (InstanceFits graph.now (facts_held holdings.now)) (image_of holdings.now).done }
{
    let mut hints = Hints::new();
    for ((number, key), ()) in holdings.done() {
        let collection = StepCollection(number);
        if !instance_fits(holdings, graph, &Inst { collection, key }, &mut hints) {
            return false;
        }
    }
    true
}

// Whether the environment may put the item, if it did; else whether the address is of the graph and the producer is done.
fn item_fits(
    holdings: &Holdings,
    graph: &Graph,
    address: &Addr,
    producer: &Producer,
    hints: &mut Hints,
) -> bool
    ensures { IsTrue result ↔ ItemFits graph.now (facts_held holdings.now) address.now producer.now }
{
    match producer {
        Producer::Env => graph.environment_puts_item(address),
        Producer::By(instance, _) => {
            graph.is_address(address) && is_done(holdings, instance, hints)
        }
    }
}

// Whether the environment may put the tag, if it did; else whether the tag is of the graph.
fn tag_fits(graph: &Graph, name: &Tag, mark: bool) -> bool
    ensures { IsTrue result ↔ TagFits graph.now name.now mark }
{
    if mark {
        graph.environment_puts_tag(name)
    } else {
        graph.is_tag(name)
    }
}

// Whether the instance is of the graph and prescribed.
fn instance_fits(holdings: &Holdings, graph: &Graph, instance: &Inst, hints: &mut Hints) -> bool
    ensures { IsTrue result ↔ InstanceFits graph.now (facts_held holdings.now) instance.now }
{
    graph.is_instance(instance) && is_prescribed(holdings, graph, instance, hints)
}

// Whether a tag that is held prescribes the instance.
pub(crate) fn is_prescribed(
    holdings: &Holdings,
    graph: &Graph,
    instance: &Inst,
    hints: &mut Hints,
) -> bool
    ensures { IsTrue result ↔ IsPrescribed graph.now (facts_held holdings.now) instance.now }
{
    match graph.prescriber(instance.collection) {
        Some(collection) => has_tag(
            holdings,
            &Tag {
                collection,
                key: instance.key,
            },
            hints,
        ),
        None => false,
    }
}

// Whether the tag is held.
fn has_tag(holdings: &Holdings, name: &Tag, hints: &mut Hints) -> bool
    ensures { result ≡ facts_held holdings.now (tag name.now) }
{
    images_of_maps();
    holdings.has_tag(name, hints)
}

// Whether the instance is done.
pub(crate) fn is_done(holdings: &Holdings, instance: &Inst, hints: &mut Hints) -> bool
    ensures { result ≡ facts_held holdings.now (done instance.now) }
{
    images_of_maps();
    holdings.is_done(instance, hints)
}
