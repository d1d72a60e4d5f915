//! How long the state of a store takes for its steps, compared with as many insertions and look-ups in maps.
ghost use Rattle.std.specs.Prelude.{◌≡◌, IfOk, IfSome, Some};
ghost use Rattle.terms.specs.Sets.{Facts};
ghost use Rattle.instances.specs.declared.state.State.TheVariants.{Running};
ghost use Rattle.terms.specs.declared.event.Event.TheVariants.{Done};
ghost use Rattle.graph.specs.Fits.{IsAbsent};
ghost use Rattle.machine.specs.Legal.{IsLegal, Needs};
ghost use Rattle.machine.specs.Machine.{facts, state_of};
ghost use Rattle.machine.specs.Meaning.{BodyGives};

use crate::readings::seconds_between;
use anyhow::{Error, bail};
use graph::{Graph, parse};
use instances::Task;
use machine::{End, Machine, given_are_of_graph, results_are_meant};
use std::alloc::{AllocError, Global};
use std::collections::{BTreeMap, HashMap};
use std::fs;
use std::io::Print;
use std::sync::Arc;
use std::time::{Clock, Instant};
use steplang::{Run, Turn};
use terms::{
    Addr, Inst, ItemCollection, Key, Producer, Put, Puts, StepCollection, Tag, TagCollection,
};

/// A step that reads nothing and puts one item.
const TEXT: &str = "[out: i]; <t: i>; <t> :: (one); (one) -> [out]; env -> <t>; [out] -> env;
step one(k) { read { } write { put [out: k] = k; } }";

/// A step that reads one item, which is the same for all instances.
const WAITING: &str = "[out: i]; <t: i>; <t> :: (one); [out] -> (one); env -> <t>; env -> [out];
step one(k) { var a; read { get a = [out: 0]; } write { } }";

/// Takes `steps` steps, each with its tag, its claim and its end with one item, and prints the microseconds of one and
/// of its body, and what the same puts and look-ups take in maps. Then it lets a tenth as many instances, and as many,
/// wait for one item, and prints what the put of that item takes for each of them. First of all it prints the bytes of
/// memory of an instance, measured by the memory of the process.
pub(crate) fn measure(rt: &HostRuntime, steps: u32) -> Result<(), Error> {
    let graph = graph_of(rt.alloc(), TEXT)?;
    compare(rt, &graph, steps)?;
    let graph = graph_of(rt.alloc(), WAITING)?;
    tell_waking(rt, &graph, steps / 10)?;
    tell_waking(rt, &graph, steps)
}

// Prints what the steps take, and the maps.
fn compare(rt: &HostRuntime, graph: &Arc<Graph>, steps: u32) -> Result<(), Error> {
    let tagged = held(rt, graph, steps, false)?;
    let ended = held(rt, graph, steps, true)?;
    let whole = stepping(rt, graph, steps)?;
    let bodies = running(rt, graph, steps)?;
    let tree = in_tree(rt, steps)?;
    let hashed = in_hash(rt, steps)?;
    println!(rt; "{steps} steps")?;
    println!(rt;
        "bytes: a ready instance and its tag {tagged}, a done one, its tag and its item {ended}"
    )?;
    let one = 1e6 / f64::from(steps.max(1));
    tell_steps(rt, one, whole, bodies)?;
    tell_maps(rt, one, tree, hashed)?;
    tell_ratios(rt, whole - bodies, tree, hashed)
}

// Prints what a step takes, and its body.
fn tell_steps<R: Print>(rt: &R, one: f64, whole: f64, bodies: f64) -> Result<(), Error> {
    println!(rt;
        "steps {:.3} µs, their bodies {:.3} µs",
        whole * one,
        bodies * one
    )?;
    Ok(())
}

// Prints what the puts and look-ups of a step take in maps.
fn tell_maps<R: Print>(rt: &R, one: f64, tree: f64, hashed: f64) -> Result<(), Error> {
    println!(rt;
        "BTreeMap {:.3} µs, HashMap {:.3} µs",
        tree * one,
        hashed * one
    )?;
    Ok(())
}

// Prints how many times as long as the maps the steps take without their bodies.
fn tell_ratios<R: Print>(rt: &R, alone: f64, tree: f64, hashed: f64) -> Result<(), Error> {
    println!(rt;
        "steps without bodies: {:.2} BTreeMaps, {:.2} HashMaps",
        alone / tree,
        alone / hashed
    )?;
    Ok(())
}

// Prints what the put of an item takes for each of the instances that wait for it.
fn tell_waking(rt: &HostRuntime, graph: &Arc<Graph>, waiting: u32) -> Result<(), Error> {
    let seconds = waking(rt, graph, waiting)?;
    let one = 1e6 / f64::from(waiting.max(1));
    println!(rt; "{waiting} woken by one put, {:.3} µs each", seconds * one)?;
    Ok(())
}

fn graph_of(alloc: Global, text: &str) -> Result<Arc<Graph>, Error> {
    match parse(alloc, text.as_bytes()) {
        Ok(graph) => Ok(Arc::new(alloc, graph)?),
        Err(_) => bail!("the text is no graph"),
    }
}

// A machine of a graph, in which nothing is there.
fn machine_of(alloc: Global, graph: &Arc<Graph>) -> Result<Machine, AllocError> {
    Machine::new(alloc, Arc::clone(graph)?)
}

// The bytes that the process takes for each of `steps` instances with its tag, and with its item if it is ended.
fn held(rt: &HostRuntime, graph: &Arc<Graph>, steps: u32, ends: bool) -> Result<u64, Error> {
    let mut machine = machine_of(rt.alloc(), graph)?;
    grown(rt, &mut machine, steps, ends)
}

// The bytes that the process takes for each of these instances in a machine.
fn grown(rt: &HostRuntime, machine: &mut Machine, steps: u32, ends: bool) -> Result<u64, Error> {
    let before = resident(rt)?;
    for number in 0..steps {
        begin(rt.alloc(), machine, i64::from(number), ends)?;
    }
    let bytes = resident(rt)?.saturating_sub(before);
    if machine.ready() > steps as usize {
        bail!("more are ready than there are")
    }
    Ok(bytes / u64::from(steps.max(1)))
}

// Puts a tag, and takes its instance to its end if it is to end.
fn begin(alloc: Global, machine: &mut Machine, number: i64, ends: bool) -> Result<(), Error> {
    if ends {
        step(alloc, machine, number)
    } else {
        put_tag(machine, number)
    }
}

// The bytes of memory that the process has in use.
fn resident(rt: &HostRuntime) -> Result<u64, Error> {
    let told = fs::read_to_string(rt, "/proc/self/statm")?;
    let pages = told.split_whitespace().nth(1).unwrap_or("0");
    Ok(pages.parse::<u64>().unwrap_or(0).saturating_mul(4096))
}

// The seconds that the steps take, with their bodies.
fn stepping<R: Clock + AllocGlobal>(rt: &R, graph: &Arc<Graph>, steps: u32) -> Result<f64, Error> {
    let mut machine = machine_of(rt.alloc(), graph)?;
    take_steps(rt, &mut machine, steps)
}

fn take_steps<R: Clock + AllocGlobal>(
    rt: &R,
    machine: &mut Machine,
    steps: u32,
) -> Result<f64, Error> {
    let start = Instant::now(rt);
    for number in 0..steps {
        step(rt.alloc(), machine, i64::from(number))?;
    }
    seconds_between(start, Instant::now(rt))
}

// The seconds that their bodies take alone.
fn running<R: Clock + AllocGlobal>(rt: &R, graph: &Arc<Graph>, steps: u32) -> Result<f64, Error> {
    let start = Instant::now(rt);
    for number in 0..steps {
        let instance = Inst {
            collection: StepCollection(0),
            key: Key::new(&[i64::from(number)]),
        };
        let _puts = run(rt.alloc(), graph, instance)?;
    }
    seconds_between(start, Instant::now(rt))
}

// Puts a tag, and takes the instance that it prescribes from its claim to its end.
fn step(alloc: Global, machine: &mut Machine, number: i64) -> Result<(), Error> {
    put_tag(machine, number)?;
    let Some(task) = machine.claim(0) else {
        bail!("no instance is ready")
    };
    end(alloc, machine, task)
}

fn put_tag(machine: &mut Machine, number: i64) -> Result<(), Error> {
    let tag = Tag {
        collection: TagCollection(0),
        key: Key::new(&[number]),
    };
    let asked = tag;
    machine.may_put_tag(asked)?;
    let put = tag;
    machine.make_room(&[Put::Tag(put)])?;
    machine.take_tag(tag);
    Ok(())
}

// Runs the body of a task, and ends it.
fn end(alloc: Global, machine: &mut Machine, task: Task) -> Result<(), Error>
    requires { state_of machine.old task ≡ Some Running }
{
    match run(alloc, machine.graph(), task.inst()) {
        Ok(Some(puts)) => take(machine, task, puts.as_slice()),
        Ok(None) => {
            machine.release(task);
            bail!("the body gave nothing")
        }
        Err(error) => {
            machine.release(task);
            Err(error.into())
        }
    }
}

// Ends a task with what its body gives over any items.
fn take(machine: &mut Machine, task: Task, puts: &[Put]) -> Result<(), Error>
    requires running { state_of machine.old task ≡ Some Running }
    requires gives { (X : Facts) → BodyGives machine.old.graph X task puts.now }
{
    match machine.may_end(&task, puts) {
        Ok(End::Done) => finish(machine, task, puts),
        _ => {
            machine.release(task);
            bail!("the step may not end")
        }
    }
}

// Makes room for an end, and takes it.
fn finish(machine: &mut Machine, task: Task, puts: &[Put]) -> Result<(), Error>
    requires running { state_of machine.old task ≡ Some Running }
    requires legal { IsLegal machine.old.graph (facts machine.old) (Done task puts.now) }
{
    machine.is_kept();
    given_are_of_graph();
    if machine.make_room(puts).is_err() {
        machine.release(task);
        bail!("no memory")
    }
    machine.take_end(task, puts);
    Ok(())
}

// What the body of an instance gives, if it reads nothing.
fn run(alloc: Global, graph: &Graph, instance: Inst) -> Result<Option<Puts>, AllocError>
    ensures { IfOk result (λ puts. IfSome puts (λ list. (X : Facts) → BodyGives graph.now X instance list)) }
{
    results_are_meant();
    let Some(checked) = graph.body(instance.collection) else {
        return Ok(None);
    };
    if instance.key.components().len() != checked.parameters {
        return Ok(None);
    }
    let mut run = Run::start(alloc, checked, instance)?;
    match run.advance(None)? {
        Turn::Gave(given) => Ok(Some(given.into_puts())),
        _ => Ok(None),
    }
}

// The seconds that the put of an item takes for which `waiting` instances wait.
fn waking<R: Clock + AllocGlobal>(rt: &R, graph: &Arc<Graph>, waiting: u32) -> Result<f64, Error> {
    let mut machine = machine_of(rt.alloc(), graph)?;
    for number in 0..waiting {
        begin_waiting(rt.alloc(), &mut machine, i64::from(number))?;
    }
    wake(rt, &mut machine, waiting)
}

// The seconds that the put of the item takes.
fn wake<R: Clock>(rt: &R, machine: &mut Machine, waiting: u32) -> Result<f64, Error> {
    let start = Instant::now(rt);
    put_item(machine)?;
    let seconds = seconds_between(start, Instant::now(rt))?;
    if machine.ready() != waiting as usize {
        bail!("not all are woken")
    }
    Ok(seconds)
}

// Puts a tag, and lets the instance that it prescribes wait.
fn begin_waiting(alloc: Global, machine: &mut Machine, number: i64) -> Result<(), Error> {
    put_tag(machine, number)?;
    let Some(task) = machine.claim(0) else {
        bail!("no instance is ready")
    };
    wait(alloc, machine, task)
}

// Lets an instance wait for the item that it asks for first.
fn wait(alloc: Global, machine: &mut Machine, task: Task) -> Result<(), Error>
    requires { state_of machine.old task ≡ Some Running }
{
    match asked(alloc, machine.graph(), task.inst()) {
        Ok(Some(address)) => Ok(machine.park(task, address)?),
        Ok(None) => {
            machine.release(task);
            bail!("the body asks for nothing")
        }
        Err(error) => {
            machine.release(task);
            Err(error.into())
        }
    }
}

// What the body of an instance asks for first.
fn asked(alloc: Global, graph: &Graph, instance: Inst) -> Result<Option<Addr>, AllocError>
    ensures { IfOk result (λ asked. IfSome asked (λ address. (X : Facts) → IsAbsent X address → Needs graph.now X instance address)) }
{
    results_are_meant();
    let Some(checked) = graph.body(instance.collection) else {
        return Ok(None);
    };
    if instance.key.components().len() != checked.parameters {
        return Ok(None);
    }
    let mut run = Run::start(alloc, checked, instance)?;
    match run.advance(None)? {
        Turn::Need(address) => Ok(Some(address)),
        _ => Ok(None),
    }
}

// Puts the item that all wait for.
fn put_item(machine: &mut Machine) -> Result<(), Error> {
    let address = Addr {
        collection: ItemCollection(0),
        key: Key::new(&[0]),
    };
    let asked = address;
    machine.may_put_item(asked)?;
    let put = address;
    machine.make_room(&[Put::Item(put, 1)])?;
    machine.take_item(address, 1);
    Ok(())
}

// The seconds of the same puts and look-ups in three maps.
fn in_tree<R: Clock + AllocGlobal>(rt: &R, steps: u32) -> Result<f64, Error> {
    let mut tags = BTreeMap::new(rt.alloc());
    let mut instances = BTreeMap::new(rt.alloc());
    let mut items = BTreeMap::new(rt.alloc());
    fill_tree(rt, &mut tags, &mut instances, &mut items, steps)
}

fn fill_tree<R: Clock>(
    rt: &R,
    tags: &mut BTreeMap<Tag, bool>,
    instances: &mut BTreeMap<Inst, u8>,
    items: &mut BTreeMap<Addr, (i64, Producer)>,
    steps: u32,
) -> Result<f64, Error> {
    let start = Instant::now(rt);
    for number in 0..steps {
        step_in_tree(tags, instances, items, i64::from(number))?;
    }
    seconds_between(start, Instant::now(rt))
}

// The puts and look-ups of a step.
fn step_in_tree(
    tags: &mut BTreeMap<Tag, bool>,
    instances: &mut BTreeMap<Inst, u8>,
    items: &mut BTreeMap<Addr, (i64, Producer)>,
    number: i64,
) -> Result<(), AllocError> {
    let key = Key::new(&[number]);
    let tag = Tag {
        collection: TagCollection(0),
        key,
    };
    let instance = Inst {
        collection: StepCollection(0),
        key,
    };
    let address = Addr {
        collection: ItemCollection(0),
        key,
    };
    if tags.get(&tag).is_none() {
        tags.insert(tag, true)?;
        instances.insert(instance, 0u8)?;
    }
    if instances.get(&instance).is_some() {
        instances.insert(instance, 1u8)?;
    }
    if items.get(&address).is_none() {
        items.insert(address, (number, Producer::By(instance, 0)))?;
    }
    instances.insert(instance, 2u8)?;
    Ok(())
}

// The same in hash maps, with keys that are only a number.
fn in_hash<R: Clock + AllocGlobal>(rt: &R, steps: u32) -> Result<f64, Error> {
    let mut tags = HashMap::new(rt.alloc());
    let mut instances = HashMap::new(rt.alloc());
    let mut items = HashMap::new(rt.alloc());
    fill_hash(rt, &mut tags, &mut instances, &mut items, steps)
}

fn fill_hash<R: Clock>(
    rt: &R,
    tags: &mut HashMap<u32, bool>,
    instances: &mut HashMap<u32, u8>,
    items: &mut HashMap<u32, (i64, Producer)>,
    steps: u32,
) -> Result<f64, Error> {
    let start = Instant::now(rt);
    for number in 0..steps {
        step_in_hash(tags, instances, items, number)?;
    }
    seconds_between(start, Instant::now(rt))
}

// The puts and look-ups of a step.
fn step_in_hash(
    tags: &mut HashMap<u32, bool>,
    instances: &mut HashMap<u32, u8>,
    items: &mut HashMap<u32, (i64, Producer)>,
    number: u32,
) -> Result<(), AllocError> {
    let instance = Inst {
        collection: StepCollection(0),
        key: Key::new(&[i64::from(number)]),
    };
    if tags.get(&number).is_none() {
        tags.insert(number, true)?;
        instances.insert(number, 0u8)?;
    }
    if instances.get(&number).is_some() {
        instances.insert(number, 1u8)?;
    }
    if items.get(&number).is_none() {
        items.insert(number, (i64::from(number), Producer::By(instance, 0)))?;
    }
    instances.insert(number, 2u8)?;
    Ok(())
}
