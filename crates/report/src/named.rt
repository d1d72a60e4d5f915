//! Addresses, tags and instances by the names of their collections.
ghost use Rattle.std.specs.Prelude.{◌≡◌};
ghost use Rattle.std.specs.Fmt.{WritesOnOk};
ghost use Rattle.report.specs.Named.{more_components, name_of, step_name_of, tag_name_of};

use graph::Graph;
use std::fmt;
use terms::{Addr, Inst, ItemCollection, Key, StepCollection, Tag, TagCollection};

/// An address of a graph, as `[c: k, ..]`.
#[derive(Clone, Copy)]
pub struct NamedAddress<'a> {
    pub graph: &'a Graph,
    pub address: Addr,
}

/// A tag of a graph, as `<t: k, ..>`.
#[derive(Clone, Copy)]
pub struct NamedTag<'a> {
    pub graph: &'a Graph,
    pub tag: Tag,
}

/// An instance of a graph, as `(s: k, ..)`.
#[derive(Clone, Copy)]
pub struct NamedInstance<'a> {
    pub graph: &'a Graph,
    pub instance: Inst,
}

/// A name, and after a colon the components of a key.
#[derive(Clone, Copy)]
struct WithKey<'a> {
    name: &'a str,
    key: &'a Key,
}

impl fmt::Display for WithKey<'_> {
    ghost use Rattle.std.specs.Prelude.{Some};
    ghost use Rattle.report.specs.Named.{with_key};

    ghost output = { λ named. Some (with_key named.name.now named.key.now) };

    fn fmt<W: fmt::Write>(&self, f: &mut fmt::Formatter<W>) -> fmt::Result {
        f.write_str(self.name)?;
        match self.key.components().split_first() {
            Some((first, more)) => {
                write!(f, ": {first}")?;
                write_more(f, more)
            }
            None => Ok(()),
        }
    }
}

/// Writes these components, each after a comma and a space.
fn write_more<W: fmt::Write>(f: &mut fmt::Formatter<W>, components: &[i64]) -> fmt::Result
    ensures { WritesOnOk W.write_str_gives f.old result (more_components components.now) f.new }
{
    for component in components {
        write!(f, ", {component}")?;
    }
    Ok(())
}

impl fmt::Display for NamedAddress<'_> {
    ghost use Rattle.std.specs.Prelude.{Some};
    ghost use Rattle.report.specs.Named.{address_text};

    ghost output = { λ named. Some (address_text named.graph.now named.address) };

    fn fmt<W: fmt::Write>(&self, f: &mut fmt::Formatter<W>) -> fmt::Result {
        let name = name_of(self.graph, self.address.collection);
        let key = &self.address.key;
        let named = WithKey { name, key };
        write!(f, "[{named}]")
    }
}

impl fmt::Display for NamedTag<'_> {
    ghost use Rattle.std.specs.Prelude.{Some};
    ghost use Rattle.report.specs.Named.{tag_text};

    ghost output = { λ named. Some (tag_text named.graph.now named.tag) };

    fn fmt<W: fmt::Write>(&self, f: &mut fmt::Formatter<W>) -> fmt::Result {
        let name = tag_name_of(self.graph, self.tag.collection);
        let key = &self.tag.key;
        let named = WithKey { name, key };
        write!(f, "<{named}>")
    }
}

impl fmt::Display for NamedInstance<'_> {
    ghost use Rattle.std.specs.Prelude.{Some};
    ghost use Rattle.report.specs.Named.{instance_text};

    ghost output = { λ named. Some (instance_text named.graph.now named.instance) };

    fn fmt<W: fmt::Write>(&self, f: &mut fmt::Formatter<W>) -> fmt::Result {
        let name = step_name_of(self.graph, self.instance.collection);
        let key = &self.instance.key;
        let named = WithKey { name, key };
        write!(f, "({named})")
    }
}

/// The name of an item collection; empty if the graph has no such collection.
pub(crate) fn name_of(graph: &Graph, collection: ItemCollection) -> &str
    ensures { result.now ≡ name_of graph.now collection }
{
    graph.item_name(collection).unwrap_or("")
}

/// The name of a tag collection; empty if the graph has no such collection.
fn tag_name_of(graph: &Graph, collection: TagCollection) -> &str
    ensures { result.now ≡ tag_name_of graph.now collection }
{
    graph.tag_name(collection).unwrap_or("")
}

/// The name of a step; empty if the graph has no such step.
pub(crate) fn step_name_of(graph: &Graph, collection: StepCollection) -> &str
    ensures { result.now ≡ step_name_of graph.now collection }
{
    graph.step_name(collection).unwrap_or("")
}
