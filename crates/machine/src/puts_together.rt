ghost use Rattle.machine.specs.Machine.{TellsWhether};
ghost use Rattle.machine.specs.Puts.{AreOfOne, IsRepeated};

use crate::Machine;
use crate::turns::room_in_turn;
use terms::{Event, equals_are_one, facts_are_told_apart};

impl Machine {
    ghost use Rattle.std.specs.Prelude.{◌≡◌, ◌≤◌};
    ghost use Rattle.std.specs.List.{AllByRecursion};
    ghost use Rattle.terms.specs.Facts as stated;
    ghost use Rattle.terms.specs.Sets.{with_facts};
    ghost use Rattle.machine.specs.Group.{TakesInTurn, puts_of_all};
    ghost use Rattle.machine.specs.Legal.{IsLegal};
    ghost use Rattle.machine.specs.Machine.{HasRoom, IsPut, TellsWhether, facts, running_count};
    ghost use Rattle.machine.specs.Puts.{PutsTogether};
    ghost use Rattle.machine.specs.State.{AreLegalFrom};

    /// How many of these puts of the environment come together, from the first one on: each is legal after those before it.
    ///
    /// It compares each put with those before it, so it is for few of them. It takes no memory.
    pub fn look_at_puts(&self, puts: &[Event]) -> usize
        requires { AllByRecursion IsPut puts.now }
        ensures { PutsTogether self.now.graph (facts self.now) puts.now result }
    {
        facts_are_told_apart();
        for number in 0..puts.len() {
            if !self.may_follow(&puts[..number], &puts[number]) {
                return number;
            }
        }
        puts.len()
    }

    // Whether the put is legal after what is here and these other puts.
    fn may_follow(&self, before: &[Event], put: &Event) -> bool
        requires before { AllByRecursion IsPut before.now }
        requires put { IsPut put.now }
        ensures { TellsWhether result (IsLegal self.now.graph (with_facts (facts self.now) (stated.facts before.now)) put.now) }
    {
        facts_are_told_apart();
        if is_repeated(before, put) {
            return false;
        }
        self.may_put(put)
    }

    // Whether the put is legal after what is here.
    fn may_put(&self, put: &Event) -> bool
        requires { IsPut put.now }
        ensures { TellsWhether result (IsLegal self.now.graph (facts self.now) put.now) }
    {
        match put {
            Event::EnvItem(addr, _) => match self.may_put_item(*addr) {
                Ok(()) => true,
                Err(_) => false,
            },
            Event::EnvTag(tag) => match self.may_put_tag(*tag) {
                Ok(()) => true,
                Err(_) => false,
            },
            Event::Done(_, _) | Event::Stopped(_, _) => false,
        }
    }

    /// Takes these puts of the environment, one after another.
    pub fn take_puts(&mut self, puts: &[Event])
        requires puts { AllByRecursion IsPut puts.now }
        requires legal { AreLegalFrom self.old.graph (facts self.old) puts.now }
        requires room { HasRoom self.old (puts_of_all puts.now) }
        ensures { TakesInTurn self.old puts.now self.new }
    {
        room_in_turn();
        for put in puts {
            self.take_put(put);
        }
    }
}

// Whether one of these puts is of the same item as this one, whatever its value, or of the same tag.
fn is_repeated(before: &[Event], put: &Event) -> bool
    ensures { TellsWhether result (IsRepeated before.now put.now) }
{
    for number in 0..before.len() {
        if are_of_one(&before[number], put) {
            return true;
        }
    }
    false
}

// Whether both put an item at one address, or both put one tag.
fn are_of_one(one: &Event, two: &Event) -> bool
    ensures { TellsWhether result (AreOfOne one.now two.now) }
{
    equals_are_one();
    match (one, two) {
        (Event::EnvItem(address, _), Event::EnvItem(other, _)) => address == other,
        (Event::EnvTag(tag), Event::EnvTag(other)) => tag == other,
        _ => false,
    }
}
