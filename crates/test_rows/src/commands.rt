//! The commands.
//!
//! - `text NAME`, `bytes NAME`: gives the name to what stands below it
//! - `tokens`, `parse`, `reads`, `graph`, `beginnings`, `refuses BYTES`: a graph text (`graphs`)
//! - `run NAME`: instances of a graph's steps, with the values of what they get (`bodies`)
//! - `alike SEED COUNT`: random bodies, each run and told from its tree (`random_bodies`)
//! - `event`, `payload`, `image`, and `short event`, `short payload`, `short image`: bytes that spell one (`codecs`).
//!   `event of 2` reads keys of at most two components, and so with the other two
//! - `rising KIND`: values that rise (`orders`)
//! - `items`: calls on a map of items (`item_calls`)
//! - `machine NAME CHOOSERS`: a story of a store in memory, once for each chooser (`states`)
//! - `core NUMBERS`: a story of a store on a memory disk with its steps, once for each number (`cores`)
//! - `crashes FIRST LAST SIDE`: such a story, cut off by a crash at each of these calls of the disk, and continued
//!   (`crashes`)
//! - `forged FIRST LAST NAMES`: random stores of these graphs, and one change of each: which of them are certified
//!   (`forged`)
//! - `first`: bytes that begin with a record (`journals`)
//! - `store NUMBERS`: a story of a store on a memory disk, once for each number (`vault_stories`)
ghost use Rattle.std.specs.Prelude.{◌≤◌};
ghost use Rattle.terms.specs.declared.key.TheConstants.{MAX_COMPONENTS};

use crate::{
    bodies, bytes, codecs, cores, crashes, forged, graphs, item_calls, journals, orders,
    random_bodies, states, stories, vaults,
};
use codecs::Spelled;
use std::alloc::{AllocError, Global};
use terms::MAX_COMPONENTS;
use test_cases::{Names, texts};

/// The result of a command with its input, with the names that a file has given.
pub(crate) fn answer(
    alloc: Global,
    names: &mut Names,
    command: &str,
    input: &str,
) -> Result<String, AllocError> {
    let (word, rest) = command.split_once(' ').unwrap_or((command, ""));
    match word {
        "text" => {
            names.give(rest, texts::lines_of(alloc, input)?.into_bytes())?;
            Ok(String::new(alloc))
        }
        "bytes" => give_bytes(alloc, names, rest, input),
        "tokens" | "parse" | "reads" | "graph" | "beginnings" | "refuses" => {
            let text = texts::text_of(alloc, input)?;
            graphs::answer(alloc, names, word, rest, text.as_str())
        }
        "run" => match names.bytes(rest) {
            Some(text) => bodies::answer(alloc, text, input),
            None => String::from_str(alloc, "no such name\n"),
        },
        "alike" => random_bodies::answer(alloc, rest),
        "core" => stories::answer::<cores::Store>(alloc, names, rest, input),
        "crashes" => crashes::answer(alloc, names, rest, input),
        "forged" => forged::answer(alloc, names, rest),
        "machine" => states::answer(alloc, names, rest, input),
        "store" => stories::answer::<vaults::World>(alloc, names, rest, input),
        "rising" => orders::answer(alloc, names, rest, input),
        "items" => item_calls::answer(alloc, input),
        _ => answer_bytes(alloc, names, command, input),
    }
}

// Gives a name to bytes. The result is empty if the input is bytes.
fn give_bytes(
    alloc: Global,
    names: &mut Names,
    name: &str,
    input: &str,
) -> Result<String, AllocError> {
    match bytes::bytes_of(alloc, names, input)? {
        Some(bytes) => {
            names.give(name, bytes)?;
            Ok(String::new(alloc))
        }
        None => String::from_str(alloc, "no bytes\n"),
    }
}

// A command on bytes.
fn answer_bytes(
    alloc: Global,
    names: &Names,
    command: &str,
    input: &str,
) -> Result<String, AllocError> {
    let Some(bytes) = bytes::bytes_of(alloc, names, input)? else {
        return String::from_str(alloc, "no bytes\n");
    };
    let (kind, most) = limited(command);
    match kind {
        "event" => codecs::event(alloc, &bytes, most),
        "payload" => codecs::payload(alloc, &bytes, most),
        "image" => codecs::image(alloc, &bytes, most),
        "short event" => codecs::beginnings(alloc, &bytes, Spelled::Event),
        "short payload" => codecs::beginnings(alloc, &bytes, Spelled::Payload),
        "short image" => codecs::beginnings(alloc, &bytes, Spelled::Image),
        "first" => journals::first(alloc, &bytes),
        _ => String::from_str(alloc, "no such command\n"),
    }
}

// A command without its limit of components, and that limit.
fn limited(command: &str) -> (&str, usize)
    ensures { result.1 ≤ MAX_COMPONENTS }
{
    match command.split_once(" of ") {
        Some((kind, most)) => {
            let most = most.parse::<usize>().unwrap_or(MAX_COMPONENTS);
            (kind, most.min(MAX_COMPONENTS))
        }
        None => (command, MAX_COMPONENTS),
    }
}
