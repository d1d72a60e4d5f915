ghost use Rattle.std.specs.Prelude.{◌≡◌, ◌<◌, ◌≤◌, ◌^◌, ℕ, IfOk, OnErr, OnOk, length, map};
ghost use Rattle.instances.specs.Known.{AllCanTake, AllGrown, AllHaveRoom, fresh_step, least, with_instance};

use crate::restored::restored_steps;
use crate::state_walk::StateWalk;
use crate::step::Step;
use crate::step_instances::StepInstances;
use crate::{DoneWalk, InstanceWalk, State, TagWalk, Task, listing};
use maps::{CollectionMap, Hint};
use std::alloc::{AllocError, Global};
use std::marker::Model;
use terms::{Addr, Inst, StepCollection, Tag, TagCollection};

/// The tags that are there, with a mark whether the environment put them, and the instances that they prescribe.
#[derive(Drop)]
pub struct Instances {
    pub(crate) tags: CollectionMap<bool>,
    pub(crate) steps: Vec<Step>,
    // The step from which on the next claim looks for a ready instance.
    pub(crate) turn: usize,
}

impl Model for Instances {
    ghost use Rattle.std.specs.Prelude.{◌≤◌, ◌^◌, length};
    ghost use Rattle.instances.specs.KnownCodes.{known_code};
    ghost use Rattle.instances.specs.Known.{Known, ArePrescribed};

    ghost Value = { Known };

    ghost coded = { known_code };

    ghost view = { λ i. record { tags = i.tags; steps = i.steps.items } };

    ghost invariant = { λ i. (length i.steps.items ≤ 2 ^ 16) × ArePrescribed i.tags i.steps.items };
}

impl Instances {
    ghost use Rattle.std.specs.Prelude.{◌≡◌, ◌-◌, ◌^◌, ◌==◌, ◌&&◌, ◌<◌, ◌≤◌, ◌↔◌, IfOk, IfSome, IsSome, IsTrue, None, OnErr, OnOk, Some, T, length, map, min};
    ghost use Rattle.std.specs.FinMap.{entries, find, is_sorted};
    ghost use Rattle.instances.specs.declared.state.State.TheVariants.{Ready, Running, Waiting, Done};
    ghost use Rattle.instances.specs.OfStep.{is_ready, is_running, is_waiting, IsWaiting};
    ghost use Rattle.terms.specs.Name.{inst_cmp};
    ghost use Rattle.terms.specs.declared.name.Inst.{Inst as Instance};
    ghost use Rattle.instances.specs.AllInstances.{all_instances};
    ghost use Rattle.instances.specs.Restored.{IsRestored};
    ghost use Rattle.instances.specs.Listed.{AreTheWaiting, AreTheDone, CountsAll, CountsDone, all_done};
    ghost use Rattle.instances.specs.Known.{fresh, mark_of, tag_at, room_for, state_at, total, MovesOne, NoneIsActive, OnlyMakesRoom, Prescribes};

    /// No tags and no instances, for this number of tag collections, with one step for each of the `prescribers`.
    pub fn new(
        alloc: Global,
        tags: usize,
        prescribers: &[TagCollection],
    ) -> Result<Self, AllocError>
        requires tags { tags ≤ 2 ^ 16 }
        requires steps { length prescribers.now ≤ 2 ^ 16 }
        ensures { IfOk result (λ known. known ≡ fresh tags prescribers.now) }
    {
        let tags = CollectionMap::new(alloc, tags)?;
        let steps = fresh_steps(alloc, prescribers)?;
        Ok(Instances {
            tags,
            steps,
            turn: 0,
        })
    }

    /// These tags, which it takes over, and the instances that they prescribe: as done if they are among `ended`, each by the number of its
    /// step and its key, else as ready. `prescribers` has the tag collection that prescribes each step.
    pub fn restored(
        alloc: Global,
        tags: CollectionMap<bool>,
        ended: &CollectionMap<()>,
        prescribers: &[TagCollection],
    ) -> Result<Self, AllocError>
        requires { length prescribers.now ≤ 2 ^ 16 }
        ensures { IfOk result (IsRestored tags ended.now.items prescribers.now) }
    {
        let steps = restored_steps(alloc, &tags, ended, prescribers)?;
        Ok(Instances {
            tags,
            steps,
            turn: 0,
        })
    }

    /// The tags that are there, in order, each with a mark whether the environment put it.
    pub fn tags(&self) -> TagWalk<'_>
        ensures { result ≡ map (λ entry. (tag_at entry.0, entry.1)) (entries self.now.tags.items) }
    {
        TagWalk {
            entries: self.tags.walk(),
        }
    }

    /// All instances, each with its state, by step and then by key.
    pub fn walk(&self) -> InstanceWalk<'_>
        ensures walk { result ≡ all_instances self.now }
        ensures rises { T (is_sorted inst_cmp (all_instances self.now)) }
        ensures states { (instance : Instance) → find inst_cmp instance (all_instances self.now) ≡ state_at self.now instance }
    {
        match self.steps.split_first() {
            Some((step, others)) => InstanceWalk {
                number: 0,
                entries: step.instances.walk(),
                steps: others,
            },
            None => InstanceWalk {
                number: 0,
                entries: StateWalk::none(),
                steps: &[],
            },
        }
    }

    /// The instances that wait, each with its address, by step and then by key.
    pub fn blocked(&self, alloc: Global) -> Result<Vec<(Inst, Addr)>, AllocError>
        ensures waiting { IfOk result (λ list. AreTheWaiting self.now list.items) }
        ensures counted { IfOk result (λ list. length list.items ≡ total is_waiting self.now) }
    {
        listing::waiting(self.walk(), alloc)
    }

    /// The instances that are done, by step and then by key.
    pub fn done(&self, alloc: Global) -> Result<Vec<Inst>, AllocError>
        ensures { IfOk result (λ list. AreTheDone self.now list.items) }
    {
        listing::done(self.walk(), alloc)
    }

    /// The instances that are done, by step and then by key, one after another.
    pub fn done_walk(&self) -> DoneWalk<'_>
        ensures walk { result ≡ all_done self.now }
        ensures done { AreTheDone self.now result }
    {
        DoneWalk { walk: self.walk() }
    }

    /// The number of further tags of the collection that there is room for, with all instances that they prescribe.
    pub fn spare(&self, collection: TagCollection) -> usize
        ensures { result ≡ room_for self.now collection }
    {
        let mut room = self.tags.room(collection.0);
        for number in 0..self.steps.len() {
            room = self.steps[number].least(collection, room);
        }
        room
    }

    /// Makes room for `count` more tags of the collection, with all instances that they prescribe. It fails only if
    /// there was less room.
    pub fn make_room(&mut self, collection: TagCollection, count: usize) -> Result<(), AllocError>
        requires { collection.0 < length self.old.tags.room }
        ensures ok { OnOk result (count ≤ room_for self.new collection) }
        ensures grows { OnlyMakesRoom self.old self.new collection }
        ensures refused { OnErr result (room_for self.old collection < count) }
    {
        self.tags.make_room(collection.0, count)?;
        make_all_room(&mut self.steps, collection, count)
    }

    /// The number of ready instances, or the greatest `usize` if there are more.
    pub fn ready(&self) -> usize
        ensures { result ≡ min (total is_ready self.now) (2 ^ 64 - 1) }
    {
        let mut ready = 0usize;
        for number in 0..self.steps.len() {
            ready = ready.saturating_add(self.steps[number].instances.ready());
        }
        ready
    }

    /// The number of instances that run, or the greatest `usize` if there are more.
    pub fn running(&self) -> usize
        ensures { result ≡ min (total is_running self.now) (2 ^ 64 - 1) }
    {
        let mut running = 0usize;
        for number in 0..self.steps.len() {
            running = running.saturating_add(self.steps[number].instances.running());
        }
        running
    }

    /// The number of instances that wait, or the greatest `usize` if there are more.
    pub fn waiting(&self) -> usize
        ensures { result ≡ min (total is_waiting self.now) (2 ^ 64 - 1) }
    {
        let mut waiting = 0usize;
        for number in 0..self.steps.len() {
            waiting = waiting.saturating_add(self.steps[number].instances.waiting());
        }
        waiting
    }

    /// The number of instances, or the greatest `usize` if there are more.
    pub fn count(&self) -> usize
        ensures { CountsAll self.now result }
    {
        let mut count = 0usize;
        for number in 0..self.steps.len() {
            count = count.saturating_add(self.steps[number].instances.count());
        }
        count
    }

    /// The number of instances that are done, or the greatest `usize` if there are more.
    pub fn done_count(&self) -> usize
        ensures { CountsDone self.now result }
    {
        let mut done = 0usize;
        for number in 0..self.steps.len() {
            done = done.saturating_add(self.steps[number].instances.done());
        }
        done
    }

    /// The number of tags, or the greatest `usize` if there are more.
    pub fn tag_count(&self) -> usize
        ensures { result ≡ min (length (entries self.now.tags.items)) (2 ^ 64 - 1) }
    {
        self.tags.count()
    }

    /// Whether no instance is ready and none runs.
    pub fn is_quiet(&self) -> bool
        ensures counts { result ≡ ((total is_ready self.now == 0) && (total is_running self.now == 0)) }
        ensures none { IsTrue result ↔ NoneIsActive self.now }
    {
        self.ready() == 0 && self.running() == 0
    }

    /// Whether the environment put a tag, if it is there.
    pub fn mark(&self, tag: Tag) -> Option<bool>
        ensures { result ≡ mark_of self.now tag }
    {
        self.tags.get(tag.collection.0, tag.key)
    }

    /// The state of an instance, if it is prescribed.
    pub fn state(&self, inst: Inst) -> Option<State>
        ensures { result ≡ state_at self.now inst }
    {
        self.steps
            .get(inst.collection.0 as usize)?
            .instances
            .state(inst.key)
    }

    /// The same as `mark`. It looks first where the hint says, and sets the hint to where the tag is or would be.
    pub fn mark_near(&self, tag: Tag, hint: &mut Hint) -> Option<bool>
        ensures { result ≡ mark_of self.now tag }
    {
        self.tags.get_near(tag.collection.0, tag.key, hint)
    }

    /// The same as `state`. It looks first where the hint says, and sets the hint to where the instance is or would be.
    pub fn state_near(&self, inst: Inst, hint: &mut Hint) -> Option<State>
        ensures { result ≡ state_at self.now inst }
    {
        self.steps
            .get(inst.collection.0 as usize)?
            .instances
            .state_near(inst.key, hint)
    }

    /// Puts a tag that is not there, and with it the instances that it prescribes, as ready. There must be room for
    /// them.
    pub fn prescribe(&mut self, tag: Tag, by_environment: bool)
        requires absent { mark_of self.old tag ≡ None }
        requires room { 0 < room_for self.old tag.collection }
        ensures { Prescribes self.old self.new tag by_environment (λ _. Ready) }
    {
        if self
            .tags
            .insert(tag.collection.0, tag.key, by_environment)
            .is_ok()
        {
            prescribe_all(&mut self.steps, tag);
        }
    }

    /// Lets one of the ready instances run, by its number among them. For number 0 the steps take turns.
    pub fn claim(&mut self, at: usize) -> Option<Task>
        ensures some { at < total is_ready self.old → IsSome result }
        ensures none { total is_ready self.old ≤ at → (result ≡ None) × (self.new ≡ self.old) }
        ensures claimed { IfSome result (λ task. (state_at self.old task ≡ Some Ready) × MovesOne self.old self.new task Running) }
    {
        if at == 0 {
            if let Some(task) = self.claim_in_turn() {
                return Some(task);
            }
        }
        self.claim_at(at)
    }

    // Lets the first ready instance of a step run: of the first step that has one, from the one on whose turn it is. None if no step from there on has any.
    fn claim_in_turn(&mut self) -> Option<Task>
        ensures some { IsSome result → 0 < total is_ready self.old }
        ensures none { result ≡ None → self.new ≡ self.old }
        ensures claimed { IfSome result (λ task. (state_at self.old task ≡ Some Ready) × MovesOne self.old self.new task Running) }
    {
        for number in self.turn..self.steps.len() {
            let ready = self.steps[number].instances.ready();
            if ready > 0 {
                let key = self.steps[number].instances.claim(0)?;
                self.turn = number + 1;
                let collection = StepCollection(number as u16);
                return Some(Task {
                    inst: Inst { collection, key },
                });
            }
        }
        self.turn = 0;
        None
    }

    // Lets one of the ready instances run, by its number among them, step by step.
    fn claim_at(&mut self, at: usize) -> Option<Task>
        ensures some { at < total is_ready self.old → IsSome result }
        ensures none { total is_ready self.old ≤ at → (result ≡ None) × (self.new ≡ self.old) }
        ensures claimed { IfSome result (λ task. (state_at self.old task ≡ Some Ready) × MovesOne self.old self.new task Running) }
    {
        let mut left = at;
        for number in 0..self.steps.len() {
            let ready = self.steps[number].instances.ready();
            if left < ready {
                let key = self.steps[number].instances.claim(left)?;
                let collection = StepCollection(number as u16);
                return Some(Task {
                    inst: Inst { collection, key },
                });
            }
            left -= ready;
        }
        None
    }

    /// Ends the instance of a task.
    pub fn finish(&mut self, task: Task)
        requires { state_at self.old task ≡ Some Running }
        ensures { MovesOne self.old self.new task Done }
    {
        let inst = task.into_inst();
        self.steps[inst.collection.0 as usize]
            .instances
            .finish(inst.key);
    }

    /// Lets the instance of a task wait at an address. If memory is refused, the instance is ready.
    pub fn park(&mut self, task: Task, addr: Addr) -> Result<(), AllocError>
        requires { state_at self.old task ≡ Some Running }
        ensures ok { OnOk result (MovesOne self.old self.new task (Waiting addr)) }
        ensures refused { OnErr result (MovesOne self.old self.new task Ready) }
    {
        let inst = task.into_inst();
        self.steps[inst.collection.0 as usize]
            .instances
            .park_or_release(inst.key, addr)
    }

    /// Gives the instance of a task back.
    pub fn release(&mut self, task: Task)
        requires { state_at self.old task ≡ Some Running }
        ensures { MovesOne self.old self.new task Ready }
    {
        let inst = task.into_inst();
        self.steps[inst.collection.0 as usize]
            .instances
            .release(inst.key);
    }

    /// Makes a waiting instance ready.
    pub fn wake(&mut self, inst: Inst)
        requires { IsWaiting (state_at self.old inst) }
        ensures { MovesOne self.old self.new inst Ready }
    {
        self.steps[inst.collection.0 as usize]
            .instances
            .wake(inst.key);
    }
}

// Adds to each step the instance that a tag prescribes.
fn prescribe_all(steps: &mut Vec<Step>, tag: Tag)
    requires { AllCanTake tag steps.old.items }
    ensures { steps.new.items ≡ map (with_instance tag) steps.old.items }
{
    for number in 0..steps.len() {
        let name = tag;
        steps[number].prescribe(name);
    }
}

// One step without instances for each collection.
fn fresh_steps(alloc: Global, prescribers: &[TagCollection]) -> Result<Vec<Step>, AllocError>
    ensures { IfOk result (λ steps. steps.items ≡ map fresh_step prescribers.now) }
{
    let mut steps = Vec::with_capacity(alloc, prescribers.len())?;
    for number in 0..prescribers.len() {
        let prescriber = prescribers[number];
        let instances = StepInstances::new(alloc);
        steps.push(Step {
            prescriber,
            instances,
        })?;
    }
    Ok(steps)
}

// Makes room for `count` more instances in each step that a collection prescribes.
fn make_all_room(
    steps: &mut Vec<Step>,
    collection: TagCollection,
    count: usize,
) -> Result<(), AllocError>
    ensures ok { OnOk result (AllHaveRoom collection.0 count steps.new.items) }
    ensures grows { AllGrown collection.0 steps.old.items steps.new.items }
    ensures refused { OnErr result ((room : ℕ) → least collection.0 room steps.old.items < count) }
{
    for number in 0..steps.len() {
        let prescriber = collection;
        steps[number].make_room(prescriber, count)?;
    }
    Ok(())
}
