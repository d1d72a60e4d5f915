//! The calls of a store.
ghost use Rattle.std.specs.Prelude.{◌≡◌, ◌<◌, ◌≤◌, true, false, length, IfOk};
ghost use Rattle.std.specs.List.{AllByRecursion};
ghost use Rattle.std.proofs.Props.{props};
ghost use Rattle.codec.specs.Spelling.{HasFewPuts, HasPutNumber};
ghost use Rattle.holdings.specs.Holdings.{image_of};
ghost use Rattle.disk.specs.MemDisk.{files_of};
ghost use Rattle.sides.specs.Reading.{IsCanonical};
ghost use Rattle.vault.specs.Store.{IsReady};

use crate::bytes::bytes_of;
use crate::disks;
use crate::reopening::spelled;
use crate::telling::tell_image;
use codec::{ImageBytes, decode_image, decode_payload};
use disk::MemDisk;
use graph::{canonical, parse};
use holdings::Holdings;
use std::alloc::{AllocError, Global};
use std::mem;
use terms::{Event, MAX_COMPONENTS};
use test_cases::Names;
use vault::{Recovered, Refused, Vault, VaultError, create, open};

/// A disk, or a store that is open on it.
pub(crate) enum World {
    Closed(MemDisk),
    Open(Live),
}

impl Drop for World {
    // By hand, so that dropping a world is one call, wherever it is dropped.
    fn drop(self) {
        match self {
            World::Closed(_) => {}
            World::Open(_) => {}
        }
    }
}

impl World {
    // Takes the world out, for a call that consumes it. Its caller puts another one back.
    fn taken(&mut self, alloc: Global) -> World {
        mem::replace(self, World::Closed(MemDisk::new(alloc)))
    }

    // The store, or the disk if none is open.
    fn into_store(self) -> Result<Live, MemDisk> {
        match self {
            World::Closed(disk) => Err(disk),
            World::Open(live) => Ok(live),
        }
    }

    // The disk, closed.
    fn into_disk(self) -> MemDisk {
        match self {
            World::Closed(disk) => disk,
            World::Open(live) => live.into_disk(),
        }
    }
}

/// An open store, and the bytes that spell the image that its opening gave.
pub(crate) struct Live {
    vault: Vault<MemDisk>,
    image: Vec<u8>,
    ghost is_ready: { vault.halted ≡ false → IsReady files_of vault } by { Prim.hlevel props },
}

impl Drop for Live {
    // By hand, so that dropping a store is one call, wherever it is dropped.
    fn drop(self) {
        let Live { vault: _, image: _ } = self;
    }
}

impl Live {
    // The disk, closed.
    fn into_disk(self) -> MemDisk {
        let Live { vault, image: _ } = self;
        vault.into_disk()
    }

    // Appends a commit of one event, or of several.
    fn appended(self, commit: &[Event]) -> (Live, Option<VaultError>)
        requires some { 1 ≤ length commit.now }
        requires puts { AllByRecursion HasFewPuts commit.now }
    {
        let Live { mut vault, image } = self;
        let result = if commit.len() == 1 {
            vault.append(&commit[0])
        } else {
            vault.append_all(commit)
        };
        match result {
            Ok(()) => (Live { vault, image }, None),
            Err(error) => (Live { vault, image }, Some(error)),
        }
    }

    // The result of a turnover through a buffer.
    fn turned(self, buffer: &mut [u8]) -> (Live, Result<u64, VaultError>)
        requires { 0 < length buffer.old }
    {
        let Live { mut vault, image } = self;
        let answer = vault.turn_by(ImageBytes::new(&image), buffer);
        (Live { vault, image }, answer)
    }

    // The result of a call of this store that returned this error, or none.
    fn answer(&self, error: Option<VaultError>) -> Answer {
        Answer {
            error,
            halts: self.vault.is_halted() && error != Some(VaultError::Halted),
        }
    }
}

// The result of a call of a store.
#[derive(Clone, Copy)]
struct Answer {
    error: Option<VaultError>,
    // Whether the store is halted now, and the error does not say so.
    halts: bool,
}

/// A call on the two files, which first closes an open store.
pub(crate) fn on_disk(
    alloc: Global,
    names: &Names,
    world: &mut World,
    word: &str,
    rest: &str,
    told: &mut String,
) -> Result<(), AllocError> {
    let mut disk = world.taken(alloc).into_disk();
    let done = disks::take(alloc, names, &mut disk, word, rest, told);
    *world = World::Closed(disk);
    done
}

/// Makes the call of the disk with this number, counted from now, fail. An open store is closed first.
pub(crate) fn fail(
    alloc: Global,
    world: &mut World,
    number: &str,
    told: &mut String,
) -> Result<(), AllocError> {
    let mut disk = world.taken(alloc).into_disk();
    let told = fail_on(&mut disk, number, told);
    *world = World::Closed(disk);
    told
}

fn fail_on(disk: &mut MemDisk, number: &str, told: &mut String) -> Result<(), AllocError> {
    match number.parse::<u64>() {
        Ok(number) => {
            disk.fail_call(number);
            Ok(())
        }
        Err(_) => told.push_str("no number"),
    }
}

// Whether a text is the canonical text of the graph that it reads as.
fn is_canonical(alloc: Global, text: &[u8]) -> Result<bool, AllocError>
    ensures { IfOk result (λ is. is ≡ true → IsCanonical text.now) }
{
    match parse(alloc, text) {
        Ok(graph) => Ok(canonical(alloc, &graph)?.as_slice() == text),
        Err(_) => Ok(false),
    }
}

/// Makes a store of the graph with this text.
pub(crate) fn create_store(
    alloc: Global,
    world: &mut World,
    text: &[u8],
    told: &mut String,
) -> Result<(), AllocError> {
    close(alloc, world);
    if !is_canonical(alloc, text)? {
        return told.push_str("not canonical");
    }
    let error = created(alloc, world, text, vec![in alloc; 0; 13]?);
    tell_error(error, "created", told)
}

fn close(alloc: Global, world: &mut World) {
    let disk = world.taken(alloc).into_disk();
    *world = World::Closed(disk);
}

// Makes a store, whose image has these bytes.
fn created(alloc: Global, world: &mut World, text: &[u8], image: Vec<u8>) -> Option<VaultError>
    requires { IsCanonical text.now }
{
    match create(alloc, world.taken(alloc).into_disk(), text) {
        Ok(vault) => {
            *world = World::Open(Live { vault, image });
            None
        }
        Err(refused) => Some(put_back(world, refused)),
    }
}

// Puts back the disk that a call handed back, and returns why it did.
fn put_back(world: &mut World, refused: Refused<MemDisk>) -> VaultError {
    let Refused { disk, error } = refused;
    *world = World::Closed(disk);
    error
}

/// Opens the store, and writes its generation.
pub(crate) fn open_store(
    alloc: Global,
    world: &mut World,
    told: &mut String,
) -> Result<(), AllocError> {
    match opened(alloc, world)? {
        Ok(generation) => write!(told, "generation {generation}"),
        Err(error) => write!(told, "{error}"),
    }
}

fn opened(alloc: Global, world: &mut World) -> Result<Result<u64, VaultError>, AllocError> {
    match open(alloc, world.taken(alloc).into_disk()) {
        Ok(recovered) => {
            let Recovered {
                vault,
                graph: _,
                holdings,
            } = recovered;
            let generation = vault.generation();
            match listed(alloc, &holdings) {
                Ok(image) => {
                    *world = World::Open(Live { vault, image });
                    Ok(Ok(generation))
                }
                Err(error) => {
                    *world = World::Closed(vault.into_disk());
                    Err(error)
                }
            }
        }
        Err(refused) => Ok(Err(put_back(world, refused))),
    }
}

// The bytes that spell the image of what is held; none if one of its lists is longer than a `u32` can count.
fn listed(alloc: Global, holdings: &Holdings) -> Result<Vec<u8>, AllocError>
    requires { AllByRecursion HasPutNumber (image_of holdings.now).items }
{
    let image = holdings.image(alloc)?;
    let bytes = spelled(alloc, &image)?;
    Ok(bytes.unwrap_or(Vec::new(alloc)))
}

/// Writes what the store held when it was opened.
pub(crate) fn tell_facts(
    alloc: Global,
    world: &World,
    told: &mut String,
) -> Result<(), AllocError> {
    match world {
        World::Open(live) => match decode_image(alloc, &live.image, MAX_COMPONENTS) {
            Ok(image) => tell_image(told, &image),
            Err(fault) => write!(told, "{fault}"),
        },
        World::Closed(_) => told.push_str("not open"),
    }
}

/// Appends the commit that these bytes spell: those of a payload, or those of several with `|` between them, whose events it has one after another.
pub(crate) fn append_commit(
    alloc: Global,
    names: &Names,
    world: &mut World,
    text: &str,
    told: &mut String,
) -> Result<(), AllocError> {
    let mut commit = Vec::new(alloc);
    let mut sound = true;
    for part in text.split('|') {
        let payload = bytes_of(alloc, names, part)?.unwrap_or(Vec::new(alloc));
        sound = add_payload(alloc, &payload, &mut commit)? && sound;
    }
    if !sound || commit.is_empty() {
        return told.push_str("no commit");
    }
    match append(alloc, world, &commit) {
        Some(answer) => tell_answer(answer, "appended", told),
        None => told.push_str("not open"),
    }
}

// Adds the events that the bytes of a payload spell; says whether they spell some.
fn add_payload(alloc: Global, bytes: &[u8], commit: &mut Vec<Event>) -> Result<bool, AllocError>
    requires { AllByRecursion HasFewPuts commit.old.items }
    ensures { AllByRecursion HasFewPuts commit.new.items }
{
    let mut events = Vec::new(alloc);
    match decode_payload(alloc, bytes, MAX_COMPONENTS, &mut events) {
        Ok(()) => {
            commit.append(&mut events)?;
            Ok(true)
        }
        Err(_) => Ok(false),
    }
}

// The result of an append, if a store is open.
fn append(alloc: Global, world: &mut World, commit: &[Event]) -> Option<Answer>
    requires some { 1 ≤ length commit.now }
    requires puts { AllByRecursion HasFewPuts commit.now }
{
    match world.taken(alloc).into_store() {
        Ok(live) => {
            let (live, error) = live.appended(commit);
            let answer = live.answer(error);
            *world = World::Open(live);
            Some(answer)
        }
        Err(disk) => {
            *world = World::Closed(disk);
            None
        }
    }
}

/// Turns the store over through a buffer of this length, and writes its generation.
pub(crate) fn turn_over(
    alloc: Global,
    world: &mut World,
    length: usize,
    told: &mut String,
) -> Result<(), AllocError>
    requires { 0 < length }
{
    let mut buffer = vec![in alloc; 0; length]?;
    match turn(alloc, world, &mut buffer) {
        Turned::To(generation) => write!(told, "turned to generation {generation}"),
        Turned::Refused(answer) => tell_answer(answer, "", told),
        Turned::NotOpen => told.push_str("not open"),
    }
}

// What became of a turnover.
#[derive(Clone, Copy)]
enum Turned {
    To(u64),
    Refused(Answer),
    NotOpen,
}

fn turn(alloc: Global, world: &mut World, buffer: &mut [u8]) -> Turned
    requires { 0 < length buffer.old }
{
    match world.taken(alloc).into_store() {
        Ok(live) => {
            let (live, answer) = live.turned(buffer);
            let turned = match answer {
                Ok(generation) => Turned::To(generation),
                Err(error) => Turned::Refused(live.answer(Some(error))),
            };
            *world = World::Open(live);
            turned
        }
        Err(disk) => {
            *world = World::Closed(disk);
            Turned::NotOpen
        }
    }
}

// Writes a result, and whether the store is halted now.
fn tell_answer(answer: Answer, done: &str, told: &mut String) -> Result<(), AllocError> {
    tell_error(answer.error, done, told)?;
    told.push_str(if answer.halts { ", halts" } else { "" })
}

fn tell_error(error: Option<VaultError>, done: &str, told: &mut String) -> Result<(), AllocError> {
    match error {
        Some(error) => write!(told, "{error}"),
        None => told.push_str(done),
    }
}
