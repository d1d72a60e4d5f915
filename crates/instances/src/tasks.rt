use crate::Task;
use std::alloc::{AllocError, Global};
use std::collections::VecDeque;
use std::marker::Model;
use terms::Inst;

/// Several claimed instances, in order. Each is taken out again as a task, which ends it, parks it or gives it back.
pub struct Tasks {
    insts: VecDeque<Inst>,
}

impl Model for Tasks {
    ghost use Rattle.std.specs.Prelude.{List};
    ghost use Rattle.terms.specs.declared.name.Inst.{Inst as Instance};

    ghost Value = { List Instance };

    ghost view = { λ t. t.insts.items };
}

impl Tasks {
    ghost use Rattle.std.specs.Prelude.{◌≡◌, ◌≤◌, ◌==◌, ◌++◌, ◌∷◌, [], IfErr, IfOk, MatchOption, OnErr, OnOk, drop, length, slice_get, take};

    /// No task yet, and room for `count` tasks at once.
    pub fn with_room(alloc: Global, count: usize) -> Result<Tasks, AllocError>
        ensures { IfOk result (λ tasks. tasks ≡ []) }
    {
        let insts = VecDeque::with_capacity(alloc, count)?;
        Ok(Tasks { insts })
    }

    /// One task, and room for `count` tasks at once. If there is no memory, the task comes back.
    pub fn new(alloc: Global, task: Task, count: usize) -> Result<Tasks, Task>
        ensures ok { IfOk result (λ tasks. tasks ≡ task ∷ []) }
        ensures back { IfErr result (λ back. back ≡ task) }
    {
        let mut tasks = match Tasks::with_room(alloc, count) {
            Ok(tasks) => tasks,
            Err(_) => return Err(task),
        };
        match tasks.add(task) {
            Ok(()) => Ok(tasks),
            Err(task) => {
                tasks.end();
                Err(task)
            }
        }
    }

    /// One more task, behind the others. If there is no memory, it comes back, and the others stay.
    pub fn add(&mut self, task: Task) -> Result<(), Task>
        ensures ok { OnOk result (self.new ≡ self.old ++ task ∷ []) }
        ensures back { IfErr result (λ back. (back ≡ task) × (self.new ≡ self.old)) }
    {
        let inst = task.into_inst();
        match self.insts.push_back(inst) {
            Ok(()) => Ok(()),
            Err(failed) => Err(Task { inst: failed.value }),
        }
    }

    /// Takes the first task out, if there is any.
    pub fn take_first(&mut self) -> Option<Task>
        ensures { MatchOption result ((self.old ≡ []) × (self.new ≡ [])) (λ task. self.old ≡ task ∷ self.new) }
    {
        let inst = self.insts.pop_front()?;
        Some(Task { inst })
    }

    /// Takes the last task out, if there is any.
    pub fn take_last(&mut self) -> Option<Task>
        ensures { MatchOption result ((self.old ≡ []) × (self.new ≡ [])) (λ task. self.old ≡ self.new ++ task ∷ []) }
    {
        let inst = self.insts.pop_back()?;
        Some(Task { inst })
    }

    /// Takes out the tasks after the first `count`. If there is no memory, all of them stay.
    pub fn split_off(&mut self, count: usize) -> Result<Tasks, AllocError>
        requires { count ≤ length self.old }
        ensures ok { IfOk result (λ others. (self.new ≡ take count self.old) × (others ≡ drop count self.old)) }
        ensures err { OnErr result (self.new ≡ self.old) }
    {
        let insts = self.insts.split_off(count)?;
        Ok(Tasks { insts })
    }

    /// Their number.
    pub fn len(&self) -> usize
        ensures { result ≡ length self.now }
    {
        self.insts.len()
    }

    /// Whether all were taken out.
    pub fn is_empty(&self) -> bool
        ensures { result ≡ (length self.now == 0) }
    {
        self.insts.is_empty()
    }

    /// The instance of the task with this number; the first task has number 0.
    pub fn get(&self, number: usize) -> Option<Inst>
        ensures { result ≡ slice_get self.now number }
    {
        self.insts.get(number).copied()
    }

    /// Lets go of it once all tasks were taken out.
    pub fn end(self)
        requires { self ≡ [] }
    {
        let Tasks { insts: _ } = self;
    }
}
