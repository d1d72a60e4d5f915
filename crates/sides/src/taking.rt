ghost use Rattle.std.specs.Prelude.{◌≡◌, ◌↔◌, ◌≤◌, ◌<◌, IsTrue, IfOk, [], ◌∷◌, length, false, None};
ghost use Rattle.std.specs.List.{AllByRecursion};
ghost use Rattle.terms.specs.Facts.{tag, bad, put_fact, put_facts, facts, environment};
ghost use Rattle.codec.specs.Spelling.{IsNumbered, HasFewPuts};
ghost use Rattle.codec.specs.Image.{image_facts};
ghost use Rattle.terms.specs.declared.put.TheConstants.{MOST_PUTS};
ghost use Rattle.graph.specs.Fits.{AllFit, Fits, FitsAs, MayEnd, IsAbsent};
ghost use Rattle.holdings.specs.Holdings.{HavePutNumbers, IsFor, image_of, facts_held};
ghost use Rattle.sides.specs.Growth.{EndFits, Grows, IsGrownBy, PutFits, GrowsByEnd, GrowsByItem, GrowsByTag, AllPutsFit};

use crate::fitting::{is_done, is_prescribed};
use graph::{Graph, fitting};
use holdings::{Hints, Holdings, images_of_maps};
use std::alloc::AllocError;
use terms::{Addr, Event, FaultKind, Inst, Producer, Put, Tag, facts_are_told_apart, facts_go_on};

/// Takes events one after another, and returns whether each fits after those before it. If one does not, or memory is
/// refused, what is held afterwards is unspecified.
pub(crate) fn take_all(
    holdings: &mut Holdings,
    graph: &Graph,
    events: &[Event],
    hints: &mut Hints,
) -> Result<bool, AllocError>
    requires few { AllByRecursion HasFewPuts events.now }
    requires collections { IsFor graph.now holdings.old }
    ensures fits { IfOk result (λ taken. IsTrue taken ↔ AllFit graph.now (image_facts (image_of holdings.old)) events.now) }
    ensures grown { IfOk result (λ taken. IsTrue taken → Grows (environment events.now) (facts events.now) holdings.old holdings.new) }
    ensures numbered { HavePutNumbers holdings.old → IfOk result (λ taken. IsTrue taken → HavePutNumbers holdings.new) }
{
    facts_are_told_apart();
    facts_go_on();
    fitting();
    for event in events {
        if !take(holdings, graph, event, hints)? {
            return Ok(false);
        }
    }
    Ok(true)
}

/// Takes an event if it fits what is held, and returns whether it fits. If it does not, or memory is refused, what is
/// held afterwards is unspecified.
fn take(
    holdings: &mut Holdings,
    graph: &Graph,
    event: &Event,
    hints: &mut Hints,
) -> Result<bool, AllocError>
    requires few { HasFewPuts event.now }
    requires collections { IsFor graph.now holdings.old }
    ensures fits { IfOk result (λ taken. IsTrue taken ↔ Fits graph.now (facts_held holdings.old) event.now) }
    ensures grown { IfOk result (λ taken. IsTrue taken → IsGrownBy event.now holdings.old holdings.new) }
    ensures numbered { HavePutNumbers holdings.old → IfOk result (λ taken. IsTrue taken → HavePutNumbers holdings.new) }
{
    facts_are_told_apart();
    images_of_maps();
    if holdings.fault().is_some() {
        return Ok(false);
    }
    match event {
        Event::EnvItem(address, value) => Ok(take_item(holdings, graph, address, *value)?),
        Event::EnvTag(name) => Ok(take_tag(holdings, graph, name)?),
        Event::Done(instance, puts) => Ok(take_end(
            holdings,
            graph,
            instance,
            puts.as_slice(),
            hints,
        )?),
        Event::Stopped(instance, kind) => Ok(take_fault(holdings, graph, instance, *kind, hints)),
    }
}

/// Takes an item of the environment.
fn take_item(
    holdings: &mut Holdings,
    graph: &Graph,
    address: &Addr,
    value: i64,
) -> Result<bool, AllocError>
    requires { IsFor graph.now holdings.old }
    ensures fits { IfOk result (λ taken. IsTrue taken ↔ FitsAs graph.now (facts_held holdings.old) (Event.EnvItem address.now value)) }
    ensures grown { IfOk result (λ taken. IsTrue taken → IsGrownBy (Event.EnvItem address.now value) holdings.old holdings.new) }
    ensures numbered { HavePutNumbers holdings.old → IfOk result (λ taken. IsTrue taken → HavePutNumbers holdings.new) }
{
    if !graph.environment_puts_item(address) {
        return Ok(false);
    }
    Ok(hold_item(holdings, address, value, Producer::Env)?)
}

/// Takes a tag of the environment.
fn take_tag(holdings: &mut Holdings, graph: &Graph, name: &Tag) -> Result<bool, AllocError>
    requires { IsFor graph.now holdings.old }
    ensures fits { IfOk result (λ taken. IsTrue taken ↔ FitsAs graph.now (facts_held holdings.old) (Event.EnvTag name.now)) }
    ensures grown { IfOk result (λ taken. IsTrue taken → IsGrownBy (Event.EnvTag name.now) holdings.old holdings.new) }
    ensures items { IfOk result (λ _. holdings.new.items ≡ holdings.old.items) }
{
    if !graph.environment_puts_tag(name) {
        return Ok(false);
    }
    Ok(hold_tag(holdings, name, true)?)
}

/// Takes the end of an instance with its puts.
fn take_end(
    holdings: &mut Holdings,
    graph: &Graph,
    instance: &Inst,
    puts: &[Put],
    hints: &mut Hints,
) -> Result<bool, AllocError>
    requires few { length puts.now ≤ MOST_PUTS }
    requires collections { IsFor graph.now holdings.old }
    ensures fits { IfOk result (λ taken. IsTrue taken ↔ EndFits graph.now (facts_held holdings.old) instance.now puts.now) }
    ensures grown { IfOk result (λ taken. IsTrue taken → GrowsByEnd instance.now puts.now holdings.old holdings.new) }
    ensures numbered { HavePutNumbers holdings.old → IfOk result (λ taken. IsTrue taken → HavePutNumbers holdings.new) }
{
    facts_are_told_apart();
    images_of_maps();
    if !may_end(holdings, graph, instance, hints) {
        return Ok(false);
    }
    if !take_puts(holdings, graph, instance, puts)? {
        return Ok(false);
    }
    holdings.end(*instance)?;
    Ok(true)
}

/// Takes the fault of an instance, if it may end; none is at fault before.
fn take_fault(
    holdings: &mut Holdings,
    graph: &Graph,
    instance: &Inst,
    kind: FaultKind,
    hints: &mut Hints,
) -> bool
    requires { holdings.old.fault ≡ None }
    ensures fits { IsTrue result ↔ MayEnd graph.now (facts_held holdings.old) instance.now }
    ensures grown { IsTrue result → Grows [] (bad instance.now kind ∷ []) holdings.old holdings.new }
    ensures items { holdings.new.items ≡ holdings.old.items }
{
    facts_are_told_apart();
    images_of_maps();
    if may_end(holdings, graph, instance, hints) {
        holdings.stop(Some((*instance, kind)));
        return true;
    }
    false
}

/// Whether the instance can be ended: it is of the graph, prescribed by a tag that is held, and not done.
fn may_end(holdings: &Holdings, graph: &Graph, instance: &Inst, hints: &mut Hints) -> bool
    ensures { IsTrue result ↔ MayEnd graph.now (facts_held holdings.now) instance.now }
{
    graph.is_instance(instance)
        && is_prescribed(holdings, graph, instance, hints)
        && !is_done(holdings, instance, hints)
}

/// Takes the puts of an instance in turn, the first of them with the number 0.
fn take_puts(
    holdings: &mut Holdings,
    graph: &Graph,
    instance: &Inst,
    puts: &[Put],
) -> Result<bool, AllocError>
    requires few { length puts.now ≤ MOST_PUTS }
    requires collections { IsFor graph.now holdings.old }
    ensures fits { IfOk result (λ taken. IsTrue taken ↔ AllPutsFit graph.now (facts_held holdings.old) puts.now) }
    ensures grown { IfOk result (λ taken. IsTrue taken → Grows [] (put_facts instance.now 0 puts.now) holdings.old holdings.new) }
    ensures numbered { HavePutNumbers holdings.old → IfOk result (λ taken. IsTrue taken → HavePutNumbers holdings.new) }
{
    facts_are_told_apart();
    for (number, put) in puts.iter().enumerate() {
        if !take_put(holdings, graph, instance, number as u32, put)? {
            return Ok(false);
        }
    }
    Ok(true)
}

/// Takes the put of an instance with this number.
fn take_put(
    holdings: &mut Holdings,
    graph: &Graph,
    instance: &Inst,
    number: u32,
    put: &Put,
) -> Result<bool, AllocError>
    requires { IsFor graph.now holdings.old }
    ensures fits { IfOk result (λ taken. IsTrue taken ↔ PutFits graph.now (facts_held holdings.old) put.now) }
    ensures grown { IfOk result (λ taken. IsTrue taken → Grows [] (put_fact instance.now number put.now ∷ []) holdings.old holdings.new) }
    ensures numbered { HavePutNumbers holdings.old → number < MOST_PUTS → IfOk result (λ taken. IsTrue taken → HavePutNumbers holdings.new) }
{
    match put {
        Put::Item(address, value) => {
            if !graph.is_address(address) {
                return Ok(false);
            }
            Ok(hold_item(holdings, address, *value, Producer::By(*instance, number))?)
        }
        Put::Tag(name) => {
            if !graph.is_tag(name) {
                return Ok(false);
            }
            hold_tag(holdings, name, false)?;
            Ok(true)
        }
    }
}

/// Puts an item in its place, and returns whether its address was free.
fn hold_item(
    holdings: &mut Holdings,
    address: &Addr,
    value: i64,
    by: Producer,
) -> Result<bool, AllocError>
    requires { address.now.collection.0 < holdings.old.counts.items }
    ensures free { IfOk result (λ free. IsTrue free ↔ IsAbsent (facts_held holdings.old) address.now) }
    ensures grown { IfOk result (λ free. IsTrue free → GrowsByItem address.now value by holdings.old holdings.new) }
    ensures numbered { HavePutNumbers holdings.old → IsNumbered by → IfOk result (λ free. IsTrue free → HavePutNumbers holdings.new) }
{
    facts_are_told_apart();
    images_of_maps();
    let free = holdings.put_item(*address, value, by)?;
    Ok(free)
}

/// Puts a tag in its place with a mark, and returns whether it was absent. A tag that is held already keeps its mark.
fn hold_tag(holdings: &mut Holdings, name: &Tag, mark: bool) -> Result<bool, AllocError>
    requires { name.now.collection.0 < holdings.old.counts.tags }
    ensures absent { IfOk result (λ absent. IsTrue absent ↔ (facts_held holdings.old (tag name.now) ≡ false)) }
    ensures grown { IfOk result (λ absent. IsTrue absent → GrowsByTag name.now mark holdings.old holdings.new) }
    ensures kept { IfOk result (λ absent. absent ≡ false → Grows [] (tag name.now ∷ []) holdings.old holdings.new) }
    ensures items { IfOk result (λ _. holdings.new.items ≡ holdings.old.items) }
{
    facts_are_told_apart();
    images_of_maps();
    let absent = holdings.put_tag(*name, mark)?;
    Ok(absent)
}
