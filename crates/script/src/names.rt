//! The names of a request, looked up in the graph.
ghost use Rattle.std.specs.Prelude.{◌≡◌, ℤ, List, MatchResult};
ghost use Rattle.script.specs.Answered.{IsKeyFault};
ghost use Rattle.script.specs.Faults.{AreFitting, AreInRange, Finds, IsFormFault, Names};
ghost use Rattle.script.specs.Forms.{Form, put};
ghost use Rattle.script.specs.Requests.{HasRead, HasValue, IsRequest};

use crate::key::WrittenKey;
use crate::request::Request;
use crate::{Command, ScriptFault};
use graph::Graph;
use terms::{Addr, Tag};

/// The command of a request, or its first fault.
pub(crate) fn command_of(graph: &Graph, request: &Request<'_>) -> Result<Command, ScriptFault>
    ensures { (form : Form) → IsRequest request.now form
        → MatchResult result (λ command. AreInRange form × Names graph.now form command) (IsFormFault graph.now form) }
{
    match request {
        Request::Put(name, key, value) => put_item(graph, name, *key, *value),
        Request::Tag(name, key) => match tag(graph, name, *key) {
            Ok(tag) => Ok(Command::Tag(tag)),
            Err(fault) => Err(fault),
        },
        Request::Get(name, key) => match address(graph, name, *key) {
            Ok(address) => Ok(Command::Get(address)),
            Err(fault) => Err(fault),
        },
        Request::Run => Ok(Command::Run),
    }
}

fn address(graph: &Graph, name: &str, key: WrittenKey) -> Result<Addr, ScriptFault>
    ensures { (components : List ℤ) → HasRead key components
        → MatchResult result (λ address. AreFitting components × Finds graph.now.items name.now components address.collection.0 × (address.key ≡ components))
        (IsKeyFault graph.now.items name.now components) }
{
    match key {
        WrittenKey::Whole(key) => match graph.item_number(name) {
            Some(collection) => {
                let address = Addr { collection, key };
                if graph.is_address(&address) {
                    Ok(address)
                } else {
                    Err(ScriptFault::Arity)
                }
            }
            None => Err(ScriptFault::UnknownName),
        },
        WrittenKey::TooLong => {
            // No collection of a graph has keys with this many components.
            graph.item_count();
            match graph.item_number(name) {
                Some(_) => Err(ScriptFault::Arity),
                None => Err(ScriptFault::UnknownName),
            }
        }
        WrittenKey::OutOfRange => Err(ScriptFault::Number),
    }
}

fn tag(graph: &Graph, name: &str, key: WrittenKey) -> Result<Tag, ScriptFault>
    ensures { (components : List ℤ) → HasRead key components
        → MatchResult result (λ tag. AreFitting components × Finds graph.now.tags name.now components tag.collection.0 × (tag.key ≡ components))
        (IsKeyFault graph.now.tags name.now components) }
{
    match key {
        WrittenKey::Whole(key) => match graph.tag_number(name) {
            Some(collection) => {
                let tag = Tag { collection, key };
                if graph.is_tag(&tag) {
                    Ok(tag)
                } else {
                    Err(ScriptFault::Arity)
                }
            }
            None => Err(ScriptFault::UnknownName),
        },
        WrittenKey::TooLong => {
            // No collection of a graph has keys with this many components.
            graph.tag_count();
            match graph.tag_number(name) {
                Some(_) => Err(ScriptFault::Arity),
                None => Err(ScriptFault::UnknownName),
            }
        }
        WrittenKey::OutOfRange => Err(ScriptFault::Number),
    }
}

// A put of an item; `None` is a value that does not fit in 64 bits.
fn put_item(
    graph: &Graph,
    name: &str,
    key: WrittenKey,
    value: Option<i64>,
) -> Result<Command, ScriptFault>
    ensures { (components : List ℤ) → (number : ℤ) → HasRead key components → HasValue value number
        → MatchResult result (λ command. AreInRange (put name.now components number) × Names graph.now (put name.now components number) command)
        (IsFormFault graph.now (put name.now components number)) }
{
    match value {
        Some(value) => match address(graph, name, key) {
            Ok(address) => Ok(Command::Put(address, value)),
            Err(fault) => Err(fault),
        },
        None => Err(ScriptFault::Number),
    }
}
