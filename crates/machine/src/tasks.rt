ghost use Rattle.std.specs.Prelude.{◌≡◌, drop, true};
ghost use Rattle.items.specs.Once.{IsOnceEach, is_one_of};
ghost use Rattle.machine.specs.Machine.{TellsWhether};

use instances::Tasks;
use terms::{Inst, inst_order};

/// Whether no instance is among these tasks twice. It compares each with the one before it, and if they are not in order, each with each.
pub fn are_once(tasks: &Tasks) -> bool
    ensures { TellsWhether result (IsOnceEach tasks.now) }
{
    if are_rising(tasks) {
        return true;
    }
    for number in 0..tasks.len() {
        let inst = tasks.get(number).unwrap();
        if is_from(tasks, number + 1, inst) {
            return false;
        }
    }
    true
}

// Whether each of these instances comes after the one before it, in their order.
fn are_rising(tasks: &Tasks) -> bool
    ensures { result ≡ true → IsOnceEach tasks.now }
{
    for number in 1..tasks.len() {
        let before = tasks.get(number - 1).unwrap();
        let inst = tasks.get(number).unwrap();
        if !inst_order(&before, &inst).is_lt() {
            return false;
        }
    }
    true
}

// Whether an instance is among these tasks from this number on.
fn is_from(tasks: &Tasks, from: usize, inst: Inst) -> bool
    ensures { result ≡ is_one_of inst (drop from tasks.now) }
{
    for number in from..tasks.len() {
        let other = tasks.get(number).unwrap();
        if inst_order(&inst, &other).is_eq() {
            return true;
        }
    }
    false
}
