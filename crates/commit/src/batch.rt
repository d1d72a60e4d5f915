ghost use Rattle.std.specs.Prelude.{◌≡◌};
ghost use Rattle.commit.specs.Batch.{end_said};

use crate::Outcome;
use instances::{Task, Tasks};
use std::alloc::Global;
use std::marker::Model;
use terms::{Event, Inst};

/// The greatest number of instances that are committed together.
pub const MOST_TOGETHER: usize = 256;

/// How many a batch has room for when it is made; more room is made as it grows.
const FIRST_ROOM: usize = 8;

/// What came of 1 to 256 instances, each with its task, to be committed together. It is spent by `finish_all`, or pair by pair by `pop`.
///
/// A contract sees its instances and their outcomes, in the order in which they were added.
pub struct Batch<'a> {
    pub(crate) tasks: Tasks,
    pub(crate) outcomes: Vec<Outcome<'a>>,
    // Empty, with room for an event for each outcome, so that the ends can be made without memory.
    pub(crate) ends: Vec<Event>,
}

impl<'a> Model for Batch<'a> {
    ghost use Rattle.std.specs.Prelude.{◌≡◌, ◌≤◌, [], length, vec_capacity};
    ghost use Rattle.std.specs.Coded.{codes};
    ghost use Rattle.steptree.specs.contracts.checked.Checked as step;
    ghost use Rattle.commit.specs.Batch.{Batch as Seen};
    ghost use Rattle.commit.specs.declared.batch.TheConstants.{MOST_TOGETHER};

    ghost Value = { Seen };

    ghost coded = { Prim.hlevel (codes, step.the_row.coded) };

    ghost view = { λ b. record { tasks = b.tasks; outcomes = b.outcomes.items } };

    ghost invariant = { λ b. (length b.outcomes.items ≡ length b.tasks) × (1 ≤ length b.tasks) × (length b.tasks ≤ MOST_TOGETHER)
        × (b.ends.items ≡ []) × (length b.tasks ≤ vec_capacity b.ends) };
}

impl<'a> Batch<'a> {
    ghost use Rattle.std.specs.Prelude.{◌≡◌, ◌≤◌, ◌<◌, ◌∷◌, [], IfErr, IfOk, OnOk, length};
    ghost use Rattle.commit.specs.Batch.{AddsPair, Batch as Seen, HavePopped, ends_said};
    ghost use Rattle.commit.specs.declared.batch.TheConstants.{MOST_TOGETHER};

    /// A batch of one instance. If there is no memory, the pair comes back.
    pub fn new(
        alloc: Global,
        task: Task,
        outcome: Outcome<'a>,
    ) -> Result<Batch<'a>, (Task, Outcome<'a>)>
        ensures ok { IfOk result (λ batch. batch ≡ record { tasks = task ∷ []; outcomes = outcome.entry ∷ [] }) }
        ensures back { IfErr result (λ back. (back.0 ≡ task) × (back.1 ≡ outcome.entry)) }
    {
        let mut outcomes = match Vec::with_capacity(alloc, FIRST_ROOM) {
            Ok(outcomes) => outcomes,
            Err(_) => return Err((task, outcome)),
        };
        let ends = match Vec::with_capacity(alloc, FIRST_ROOM) {
            Ok(ends) => ends,
            Err(_) => return Err((task, outcome)),
        };
        match Tasks::new(alloc, task, FIRST_ROOM) {
            Ok(tasks) => {
                outcomes.push_reserved(outcome);
                Ok(Batch {
                    tasks,
                    outcomes,
                    ends,
                })
            }
            Err(task) => Err((task, outcome)),
        }
    }

    /// Adds an instance behind the others. If there is no memory, the pair comes back, and the batch stays as it was.
    pub fn add(&mut self, task: Task, outcome: Outcome<'a>) -> Result<(), (Task, Outcome<'a>)>
        requires { length self.old.tasks < MOST_TOGETHER }
        ensures ok { OnOk result (AddsPair self.old self.new task outcome.entry) }
        ensures back { IfErr result (λ back. (back.0 ≡ task) × (back.1 ≡ outcome.entry) × (self.new ≡ self.old)) }
    {
        if self.outcomes.reserve(1).is_err()
            || self.ends.reserve(self.outcomes.len() + 1).is_err()
        {
            return Err((task, outcome));
        }
        match self.tasks.add(task) {
            Ok(()) => {
                self.outcomes.push_reserved(outcome);
                Ok(())
            }
            Err(task) => Err((task, outcome)),
        }
    }

    /// How many instances it has.
    pub fn len(&self) -> usize
        ensures count { result ≡ length self.now.tasks }
        ensures some { 1 ≤ result }
        ensures few { result ≤ MOST_TOGETHER }
        ensures ends { result ≡ length (ends_said self.now) }
    {
        self.tasks.len()
    }

    /// The instances, with their tasks.
    pub fn tasks(&self) -> &Tasks
        ensures { result.now ≡ self.now.tasks }
    {
        &self.tasks
    }

    /// Takes the last pair off, and gives back the batch of the others, if there are any.
    pub fn pop(self) -> (Task, Outcome<'a>, Option<Batch<'a>>)
        ensures { HavePopped self.entry result.0 result.1 result.2 }
    {
        let Batch {
            mut tasks,
            mut outcomes,
            ends,
        } = self;
        let task = tasks.take_last().unwrap();
        let outcome = outcomes.pop().unwrap();
        if tasks.is_empty() {
            tasks.end();
            (task, outcome, None)
        } else {
            (
                task,
                outcome,
                Some(Batch {
                    tasks,
                    outcomes,
                    ends,
                }),
            )
        }
    }

    /// The tasks, and the ends that the outcomes say. It takes no memory.
    pub(crate) fn into_ends(self) -> (Tasks, Vec<Event>)
        ensures tasks { result.0 ≡ self.entry.tasks }
        ensures ends { result.1.items ≡ ends_said self.entry }
        ensures even { length self.entry.outcomes ≡ length self.entry.tasks }
        ensures some { 1 ≤ length self.entry.tasks }
        ensures few { length self.entry.tasks ≤ MOST_TOGETHER }
    {
        let Batch {
            tasks,
            outcomes,
            mut ends,
        } = self;
        for outcome in outcomes {
            let instance = tasks.get(ends.len()).unwrap();
            ends.push_reserved(end_of(instance, outcome));
        }
        (tasks, ends)
    }
}

// The end of an instance, as its outcome says it.
fn end_of(instance: Inst, outcome: Outcome<'_>) -> Event
    ensures { result ≡ end_said instance outcome.entry }
{
    match outcome {
        Outcome::Gave(given) => Event::Done(instance, given.into_puts()),
        Outcome::Fault(bad) => Event::Stopped(instance, bad.kind()),
    }
}
