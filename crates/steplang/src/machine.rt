ghost use Rattle.std.specs.Prelude.{◌≡◌, ◌≢◌, ◌<ℤ◌, slice_get, slice_set, Ok, suc, nat_lt, if◌then◌else◌, IfOk, OnOk, OnErr, MatchOption, None, Some, ◌∷◌, pos};
ghost use Rattle.std.specs.Ordering.{int_eq};
ghost use Rattle.steptree.specs.declared.body.TheConstants.{BUDGET};
ghost use Rattle.steptree.specs.declared.code.Instruction.TheVariants as instruction;
ghost use Rattle.steptree.specs.declared.simple.Action.TheVariants.{Puts};
ghost use Rattle.steptree.specs.Simple.{action_of};
ghost use Rattle.steptree.specs.Compiled.{Stands};
ghost use Rattle.steptree.specs.Executed.{advanced};
ghost use Rattle.steplang.specs.Stages.{IsStarted};
ghost use Rattle.steplang.specs.declared.machine.Step.TheVariants.{On};
ghost use Rattle.steplang.specs.Machine.{outcome_from, outcome_of_action, GetsValue, LeadsFrom, open_loops, Falls, OpensOne, IsPut, IsRare, Carries};

use crate::action::action;
use crate::value::{Variables, evaluate, evaluate_expression, variables_of};
use std::alloc::{AllocError, Global};
use steptree::{Action, BUDGET, Checked, Expression, Instruction, Loop, Simple, Slot};
use terms::{Addr, FaultKind, ItemCollection, Key, MOST_PUTS, Put};

/// The result of a step. It is small, since each statement returns one.
#[derive(Clone, Copy)]
pub(crate) enum Step {
    /// There is a next step.
    On,
    /// The machine asks for its item `asked`, whose value is for this variable.
    Asked(Slot),
    /// The instance is at fault.
    Failed(FaultKind),
    /// Nothing is left to do.
    Ended,
}

// The second place if the value is 0, else the first.
#[inline(always)]
fn chosen(value: i64, first: usize, second: usize) -> usize
    ensures { result ≡ (if int_eq value (pos 0) then second else first) }
{
    if value == 0 { second } else { first }
}

// The instruction at a place, if there is one.
#[inline(always)]
fn instruction_at(code: &[Instruction], at: usize) -> Option<&Instruction>
    ensures { MatchOption result (slice_get code.now at ≡ None) (λ one. Stands code.now at one.now) }
{
    code.get(at)
}

/// The place of the next instruction, and how many statements and turns were counted.
#[derive(Clone, Copy)]
pub(crate) struct Progress {
    pub(crate) at: usize,
    pub(crate) counted: u32,
}

impl Progress {
    // Counts one more statement or turn, or returns `false` if the budget is used up.
    #[inline(always)]
    fn count(&mut self) -> bool
        ensures counted { result ≡ nat_lt self.old.counted BUDGET }
        ensures one { self.new ≡ record self.old { counted = if result then suc self.old.counted else self.old.counted } }
    {
        if self.counted >= BUDGET {
            return false;
        }
        self.counted += 1;
        true
    }
}

/// An instance while its code runs.
#[derive(Drop)]
pub(crate) struct Machine<'a> {
    pub(crate) code: &'a [Instruction],
    /// How far it was when it stopped last.
    pub(crate) progress: Progress,
    pub(crate) variables: Variables,
    /// The innermost open loop, if a loop is open.
    pub(crate) inner: Option<Loop>,
    /// The loops around it, the innermost of them last. They mean nothing while no loop is open.
    pub(crate) around: Vec<Loop>,
    pub(crate) puts: Vec<Put>,
    /// The item that was asked for last. It means nothing before the first.
    pub(crate) asked: Addr,
}

impl<'a> Machine<'a> {
    /// An instance with this key before the first statement of its body.
    pub(crate) fn start(alloc: Global, checked: &'a Checked, key: Key) -> Self
        ensures { IsStarted result checked.entry.now.body key }
    {
        Machine {
            code: &checked.code.instructions,
            progress: Progress {
                at: checked.code.start,
                counted: 0,
            },
            variables: variables_of(key),
            inner: None,
            around: Vec::new(alloc),
            puts: Vec::new(alloc),
            asked: Addr {
                collection: ItemCollection(0),
                key,
            },
        }
    }

    /// The same in the place of another instance, whose memory it keeps.
    pub(crate) fn restart(&mut self, checked: &'a Checked, key: Key)
        ensures { IsStarted self.new checked.entry.now.body key }
    {
        self.code = &checked.code.instructions;
        self.progress = Progress {
            at: checked.code.start,
            counted: 0,
        };
        self.variables = variables_of(key);
        self.inner = None;
        self.puts.clear();
    }

    /// Gives the variable that waits for an item its value.
    pub(crate) fn answer(&mut self, variable: Slot, value: i64)
        ensures { GetsValue variable value self.old self.new }
    {
        self.variables[variable.place()] = value;
    }

    /// Runs until it asks for an item, or to the end. The kinds of instructions that inner loops have are carried out here.
    #[inline(never)]
    pub(crate) fn go(&mut self) -> Result<Step, AllocError>
        ensures leads { IfOk result (λ step. LeadsFrom (outcome_from self.old self.old.progress) step self.new self.new.progress) }
        ensures stops { IfOk result (λ step. step ≢ On) }
    {
        let code = self.code;
        let mut progress = self.progress;
        'steps: loop {
            let Some(one) = instruction_at(code, progress.at) else {
                return self.stop(progress, Step::Ended);
            };
            match one {
                Instruction::Turn => {
                    let Some(innermost) = self.inner else {
                        return self.stop(progress, Step::Ended);
                    };
                    if innermost.next >= innermost.to {
                        self.inner = self.around.pop();
                        progress.at = innermost.after;
                        continue 'steps;
                    }
                    if !progress.count() {
                        return self.stop(progress, Step::Failed(FaultKind::Budget));
                    }
                    progress.at = innermost.begin;
                    self.turn(innermost);
                }
                Instruction::Assign {
                    variable,
                    value,
                    next,
                } => {
                    if !progress.count() {
                        return self.stop(progress, Step::Failed(FaultKind::Budget));
                    }
                    match evaluate(value, &self.variables) {
                        Ok(value) => {
                            self.variables[variable.place()] = value;
                            progress.at = *next;
                        }
                        Err(kind) => return self.stop(progress, Step::Failed(kind)),
                    }
                }
                Instruction::Branch {
                    condition,
                    first,
                    second,
                } => {
                    if !progress.count() {
                        return self.stop(progress, Step::Failed(FaultKind::Budget));
                    }
                    match evaluate(condition, &self.variables) {
                        Ok(value) => progress.at = chosen(value, *first, *second),
                        Err(kind) => return self.stop(progress, Step::Failed(kind)),
                    }
                }
                _ => {
                    // It has a place of its own in memory, so that the kinds above need none.
                    let mut slow = progress;
                    match self.step(&mut slow, one)? {
                        Step::On => progress = slow,
                        stopped => return self.stop(slow, stopped),
                    }
                }
            }
        }
    }

    // Stops here.
    #[inline(always)]
    fn stop(&mut self, progress: Progress, step: Step) -> Result<Step, AllocError>
        ensures { (result ≡ Ok step) × (self.new ≡ record self.old { progress = progress }) }
    {
        self.progress = progress;
        Ok(step)
    }

    // Opens a loop: both bounds are evaluated once.
    #[inline(always)]
    fn open(
        &mut self,
        progress: &mut Progress,
        variable: Slot,
        from: &Expression,
        to: &Expression,
        turn: usize,
        begin: usize,
        after: usize,
    ) -> Result<Step, AllocError>
        ensures leads { Carries (instruction.For variable from.now to.now turn begin after) self.old progress.old self.new progress.new result }
        ensures opens { IfOk result (λ step. OpensOne self.old progress.old step self.new progress.new) }
        ensures same { self.new.code ≡ self.old.code }
    {
        let from = match evaluate_expression(from, &self.variables) {
            Ok(from) => from,
            Err(kind) => return Ok(Step::Failed(kind)),
        };
        let to = match evaluate_expression(to, &self.variables) {
            Ok(to) => to,
            Err(kind) => return Ok(Step::Failed(kind)),
        };
        self.enter(Loop {
            variable,
            next: from,
            to,
            begin,
            after,
        })?;
        progress.at = turn;
        Ok(Step::On)
    }

    // Opens this loop inside the ones that are open.
    #[inline(always)]
    fn enter(&mut self, innermost: Loop) -> Result<(), AllocError>
        ensures loops { OnOk result (open_loops self.new ≡ innermost ∷ open_loops self.old) }
        ensures refused { OnErr result (open_loops self.new ≡ open_loops self.old) }
        ensures same { self.new ≡ record self.old { inner = self.new.inner; around = self.new.around } }
    {
        match self.inner {
            Some(outer) => {
                self.around.reserve(1)?;
                self.around.push_reserved(outer);
            }
            None => self.around.clear(),
        }
        self.inner = Some(innermost);
        Ok(())
    }

    // Begins a turn of the innermost loop, which was counted.
    #[inline(always)]
    fn turn(&mut self, innermost: Loop)
        requires left { innermost.next <ℤ innermost.to }
        requires inner { self.old.inner ≡ Some innermost }
        ensures { self.new ≡ record self.old { inner = Some (advanced innermost); variables = slice_set self.old.variables innermost.variable innermost.next } }
    {
        if let Some(inner) = &mut self.inner {
            inner.next = innermost.next + 1;
        }
        self.variables[innermost.variable.place()] = innermost.next;
    }

    // Does a simple statement.
    fn do_simple(
        &mut self,
        progress: &mut Progress,
        statement: &Simple,
        next: usize,
    ) -> Result<Step, AllocError>
        ensures leads { Carries (instruction.Do statement.now next) self.old progress.old self.new progress.new result }
        ensures opens { IfOk result (λ step. OpensOne self.old progress.old step self.new progress.new) }
        ensures refused { OnErr result (IsPut (action_of statement.now self.old.variables)) }
        ensures same { self.new.code ≡ self.old.code }
    {
        match action(statement, &self.variables) {
            Ok(action) => self.act(progress, action, next),
            Err(kind) => Ok(Step::Failed(kind)),
        }
    }

    // Does what a simple statement came to.
    fn act(
        &mut self,
        progress: &mut Progress,
        action: Action,
        next: usize,
    ) -> Result<Step, AllocError>
        ensures leads { IfOk result (λ step. LeadsFrom (outcome_of_action action next self.old progress.old) step self.new progress.new) }
        ensures opens { IfOk result (λ step. OpensOne self.old progress.old step self.new progress.new) }
        ensures refused { OnErr result (IsPut (Ok action)) }
        ensures same { self.new.code ≡ self.old.code }
    {
        match action {
            Action::Assigns(variable, value) => {
                self.variables[variable.place()] = value;
                progress.at = next;
                Ok(Step::On)
            }
            Action::Gets(variable, address) => {
                self.asked = address;
                progress.at = next;
                Ok(Step::Asked(variable))
            }
            Action::Puts(put) => self.put(progress, put, next),
        }
    }

    // Makes one more put, if the limit allows it.
    fn put(&mut self, progress: &mut Progress, put: Put, next: usize) -> Result<Step, AllocError>
        ensures leads { IfOk result (λ step. LeadsFrom (outcome_of_action (Puts put) next self.old progress.old) step self.new progress.new) }
        ensures opens { IfOk result (λ step. OpensOne self.old progress.old step self.new progress.new) }
        ensures same { self.new.code ≡ self.old.code }
    {
        if self.puts.len() >= MOST_PUTS {
            return Ok(Step::Failed(FaultKind::TooManyPuts));
        }
        self.puts.push(put)?;
        progress.at = next;
        Ok(Step::On)
    }

    // Carries out an instruction that `go` does not carry out itself.
    #[cold]
    #[inline(never)]
    fn step(&mut self, progress: &mut Progress, one: &Instruction) -> Result<Step, AllocError>
        requires stands { Stands self.old.code.now progress.old.at one.now }
        requires rare { IsRare one.now }
        ensures leads { IfOk result (λ step. LeadsFrom (outcome_from self.old progress.old) step self.new progress.new) }
        ensures falls { IfOk result (λ step. Falls self.old progress.old step self.new progress.new) }
        ensures same { self.new.code ≡ self.old.code }
    {
        match one {
            Instruction::End => Ok(Step::Ended),
            Instruction::Turn => unreachable!(),
            Instruction::Assign { .. } => unreachable!(),
            Instruction::Branch { .. } => unreachable!(),
            Instruction::For {
                variable,
                from,
                to,
                turn,
                begin,
                after,
            } => {
                if !progress.count() {
                    return Ok(Step::Failed(FaultKind::Budget));
                }
                self.open(progress, *variable, from, to, *turn, *begin, *after)
            }
            Instruction::Do { statement, next } => {
                if !progress.count() {
                    return Ok(Step::Failed(FaultKind::Budget));
                }
                self.do_simple(progress, statement, *next)
            }
        }
    }
}
