//! The laws about texts, graphs, and the events that fit a graph. Each is a contract, with nothing to run.
ghost use Rattle.graph.specs.FitLaws.{StateKeeps, FitKeeps, AllFitKeep, AllFitInParts, StateAsSet, EventAsSet, EventsAsSet, FitAsListed};
ghost use Rattle.std.specs.Prelude.{◌≡◌};
ghost use Rattle.graph.specs.Prescribed.{PrescribesListed};
ghost use Rattle.graph.specs.Textual.{CanonicalReads, OneGraph, OneReading, ReadsTextual, ReadsWithoutFault};
ghost use Rattle.graph.specs.declared.limits.TheConstants.{MOST_TEXT};

use syntax::{one_derivation, read_without_fault, tokens_once};
use terms::facts_are_told_apart;

/// The limit of a text, as a number.
pub fn text_limit()
    ensures { MOST_TEXT ≡ 65536 }
{}

/// If a text can give a graph, then the graph's canonical text reads as that graph, unless the canonical text is too long.
pub fn canonical_reads()
    ensures { CanonicalReads }
{}

/// All trees that a text is read as, if they are graphs, are one graph.
pub fn one_graph()
    ensures { OneGraph }
{
    tokens_once();
    one_derivation();
}

/// A text reads as one graph at most.
pub fn one_reading()
    ensures { OneReading }
{
    one_graph();
}

/// After an event that fits, the state still fits. A list of events fits exactly if its first part fits and then its second
/// part does. How facts are listed does not matter.
pub fn fitting()
    ensures state_keeps { StateKeeps }
    ensures keeps { FitKeeps }
    ensures all_keep { AllFitKeep }
    ensures parts { AllFitInParts }
    ensures state_as_set { StateAsSet }
    ensures event_as_set { EventAsSet }
    ensures events_as_set { EventsAsSet }
    ensures as_listed { FitAsListed }
{
    facts_are_told_apart();
}

/// If a text reads as a graph, then the graph is one that can be written as a text.
pub fn reads_textual()
    ensures { ReadsTextual }
{}

/// If a text reads as a graph, its only possible fault is `NoMemory`: so `parse` returns the graph, unless memory is refused.
pub fn reads_without_fault()
    ensures { ReadsWithoutFault }
{
    tokens_once();
    one_derivation();
    read_without_fault();
    one_graph();
}

/// A tag prescribes an instance exactly if `Graph::prescribed_by` lists its step and the keys are equal.
pub fn prescribing()
    ensures { PrescribesListed }
{}
