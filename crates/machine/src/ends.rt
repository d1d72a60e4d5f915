use crate::absence::are_absent;
use crate::distinct::are_distinct;
use crate::keeping::given_are_of_graph;
use crate::{End, Machine, Refusal};
use instances::{State, Task};
use maps::Hint;
use terms::{FaultKind, Inst, Put, facts_are_told_apart};

impl Machine {
    ghost use Rattle.std.specs.Prelude.{◌≡◌, ◌↔◌, ◌≤◌, IfErr, IfOk, IsTrue, MatchBool, OnErr, OnOk, Some, length};
    ghost use Rattle.terms.specs.declared.put.TheConstants.{MOST_PUTS};
    ghost use Rattle.terms.specs.declared.event.Event.{Event};
    ghost use Rattle.terms.specs.declared.event.Event.TheVariants.{Stopped};
    ghost use Rattle.instances.specs.declared.state.State.TheVariants.{Running};
    ghost use Rattle.graph.specs.Fits.{AreNew};
    ghost use Rattle.machine.specs.Legal.{Conflicts, IsLegal};
    ghost use Rattle.machine.specs.Meaning.{BodyGives, BodyFaults};
    ghost use Rattle.machine.specs.Machine.{RefusesEnd, event_of, facts, state_of};

    /// Whether the instance of a task is running here.
    pub fn runs(&self, task: &Task) -> bool
        ensures { IsTrue result ↔ (state_of self.now task.now ≡ Some Running) }
    {
        self.runs_here(task.inst())
    }

    // Whether an instance is running here.
    pub(crate) fn runs_here(&self, inst: Inst) -> bool
        ensures { IsTrue result ↔ (state_of self.now inst ≡ Some Running) }
    {
        self.memory.instances.state(inst) == Some(State::Running)
    }

    // The same. It looks first where the hint says, and sets the hint to where the instance is or would be.
    pub(crate) fn runs_near(&self, inst: Inst, hint: &mut Hint) -> bool
        ensures { IsTrue result ↔ (state_of self.now inst ≡ Some Running) }
    {
        self.memory.instances.state_near(inst, hint) == Some(State::Running)
    }

    /// How an instance ends after its body gave these puts, reading the items that are here: it is done, or at fault because
    /// of a double put. If the store has a fault, the instance may not end.
    ///
    /// It allocates no memory: it looks each item up, and sorts the addresses of the puts.
    pub fn may_end(&mut self, task: &Task, puts: &[Put]) -> Result<End, Refusal>
        requires running { state_of self.old task.now ≡ Some Running }
        requires gives { BodyGives self.old.graph (facts self.old) task.now puts.now }
        ensures legal { IfOk result (λ end. IsLegal self.old.graph (facts self.old) (event_of end task.now puts.now)) }
        ensures illegal { OnErr result ((event : Event) → IsLegal self.old.graph (facts self.old) event → ⊥) }
        ensures refused { IfErr result (RefusesEnd (facts self.old)) }
        ensures same { self.new ≡ self.old }
    {
        self.memory.instances.are_there_together();
        given_are_of_graph();
        self.is_working()?;
        if self.are_new(puts) {
            Ok(End::Done)
        } else {
            Ok(End::DoublePut)
        }
    }

    /// Whether the fault of a body that read the items that are here is legal. If the store already has a fault, no event is.
    pub fn may_stop(&self, task: &Task, kind: FaultKind) -> Result<(), Refusal>
        requires running { state_of self.now task.now ≡ Some Running }
        requires faults { BodyFaults self.now.graph (facts self.now) task.now kind }
        ensures legal { OnOk result (IsLegal self.now.graph (facts self.now) (Stopped task.now kind)) }
        ensures illegal { OnErr result ((event : Event) → IsLegal self.now.graph (facts self.now) event → ⊥) }
        ensures refused { IfErr result (RefusesEnd (facts self.now)) }
    {
        self.memory.instances.are_there_together();
        self.is_working()
    }

    /// Whether the items of these puts are new; if not, one of them conflicts. It allocates no memory.
    pub fn are_new(&mut self, puts: &[Put]) -> bool
        requires { length puts.now ≤ MOST_PUTS }
        ensures new { MatchBool result (AreNew (facts self.old) puts.now) (Conflicts (facts self.old) puts.now) }
        ensures same { self.new ≡ self.old }
    {
        facts_are_told_apart();
        are_absent(&self.memory.items, puts) && are_distinct(&mut self.addresses, puts)
    }
}
