use crate::Machine;
use crate::tasks::are_once;
use crate::turns::{room_in_turn, run_in_turn};
use instances::{Tasks, runs_are_counted};
use maps::Hint;
use terms::{Event, orders_are_total};

impl Machine {
    ghost use Rattle.std.specs.Prelude.{◌≡◌, ◌+◌, ◌≤◌, [], ◌∷◌, Some, drop, length};
    ghost use Rattle.std.specs.List.{AllByRecursion};
    ghost use Rattle.instances.specs.declared.state.State.TheVariants.{Running};
    ghost use Rattle.machine.specs.Group.{AreEndedBy, AreRunning, GivesAllBack, TakesInTurn, puts_of_all};
    ghost use Rattle.machine.specs.GroupTaking.{TakesFirst};
    ghost use Rattle.machine.specs.Legal.{IsLegal};
    ghost use Rattle.machine.specs.Machine.{HasRoom, TellsWhether, facts, puts_of, running_count, state_of};
    ghost use Rattle.machine.specs.State.{AreLegalFrom};

    /// Whether each of these instances runs here, and none is among them twice.
    pub fn runs_all(&self, tasks: &Tasks) -> bool
        ensures { TellsWhether result (AreRunning self.now tasks.now) }
    {
        self.all_run(tasks) && are_once(tasks)
    }

    // Whether each of these instances runs here.
    fn all_run(&self, tasks: &Tasks) -> bool
        ensures { TellsWhether result (AllByRecursion (λ instance. state_of self.now instance ≡ Some Running) tasks.now) }
    {
        let mut hint = Hint::new();
        for number in 0..tasks.len() {
            let inst = tasks.get(number).unwrap();
            if !self.runs_near(inst, &mut hint) {
                return false;
            }
        }
        true
    }

    /// Takes these ends of the first of the tasks, one after another, and spends these tasks.
    pub fn take_ends(&mut self, tasks: &mut Tasks, ends: &[Event])
        requires ended { AreEndedBy ends.now tasks.old }
        requires running { AreRunning self.old tasks.old }
        requires legal { AreLegalFrom self.old.graph (facts self.old) ends.now }
        requires room { HasRoom self.old (puts_of_all ends.now) }
        ensures takes { TakesInTurn self.old ends.now self.new }
        ensures rest { tasks.new ≡ drop (length ends.now) tasks.old }
        ensures running { AreRunning self.new tasks.new }
        ensures counted { running_count self.new + length ends.now ≤ running_count self.old }
    {
        room_in_turn();
        for end in ends {
            self.take_first_end(tasks, end);
        }
    }

    // Takes the end of the first of the tasks, and spends it.
    fn take_first_end(&mut self, tasks: &mut Tasks, end: &Event)
        requires ended { AreEndedBy (end.now ∷ []) tasks.old }
        requires running { AreRunning self.old tasks.old }
        requires legal { IsLegal self.old.graph (facts self.old) end.now }
        requires room { HasRoom self.old (puts_of end.now) }
        ensures { TakesFirst self.old tasks.old end.now self.new tasks.new }
    {
        run_in_turn();
        runs_are_counted();
        orders_are_total();
        let task = tasks.take_first().unwrap();
        self.take_step(task, end);
    }

    /// Gives the instances of these tasks back: each is ready.
    pub fn release_all(&mut self, mut tasks: Tasks)
        requires running { AreRunning self.old tasks }
        ensures back { GivesAllBack self.old self.new tasks }
        ensures counted { running_count self.new + length tasks ≤ running_count self.old }
    {
        orders_are_total();
        while let Some(task) = tasks.take_first() {
            self.release(task);
        }
        tasks.end();
    }
}
