//! What a pass does on the board: a visit at the desk, and what needs no lock.
ghost use Rattle.std.specs.Prelude.{◌≡◌, ◌+◌, ◌<◌, ◌^◌, None, length, true};
ghost use Rattle.std.specs.List.{AllByRecursion};
ghost use Rattle.passes.specs.Known.{asked_of, commits, count_of, heard_of, told_of, writing_by};
ghost use Rattle.passes.specs.Steps.{IsCountFor};
ghost use Rattle.passes.specs.Visits.{Shows, Writes};

use crate::rule::Committing;
use crate::{Board, Desk, Kind, Naming, Pass};
use atomic_table::Badge;
use std::mem;

impl<J: Naming> Board<J> {
    /// Shows the pass the history: it is lent to the desk, compared with the history, and given back with all of it seen.
    pub fn show<K: Kind>(&self, desk: &mut Desk<J>, pass: &mut Pass<J, K>)
        requires { desk.old.guest ≡ None }
        ensures desk { desk.new ≡ desk.old }
        ensures pass { Shows desk.old.book.history pass.old pass.new }
    {
        let badge = mem::replace(&mut pass.badge, Badge::blank());
        self.lend(desk, badge);
        pass.badge = self.give_back(desk);
    }

    /// Makes the commit of `M` with the pass, which then sees the history with the commit at its end. `count` is how many
    /// events the commit has: the number of events grows by all of them at once.
    pub fn record<K: Kind, M: Committing>(
        &self,
        desk: &mut Desk<J>,
        pass: &mut Pass<J, K>,
        count: u64,
    )
        requires alone { desk.old.guest ≡ None }
        requires count { count ≡ length M.commit }
        requires room { count_of (commits desk.old.book.history) + count < 2 ^ 64 }
        requires kind { AllByRecursion K.makes M.commit }
        ensures desk { desk.new ≡ writing_by pass.old.number M.commit desk.old }
        ensures pass { Writes M.commit desk.old.book.history desk.new.book.history pass.old pass.new }
    {
        let badge = mem::replace(&mut pass.badge, Badge::blank());
        self.lend(desk, badge);
        self.write::<M>(desk, count);
        pass.badge = self.give_back(desk);
    }

    /// The number of events in the history. It waits for nobody, and takes no memory.
    pub fn commits<K: Kind>(&self, pass: &mut Pass<J, K>) -> u64
        ensures pass { pass.new ≡ told_of result pass.old }
        ensures count { IsCountFor result pass.old }
    {
        let badge = mem::replace(&mut pass.badge, Badge::blank());
        let (badge, count) = self.count(badge);
        pass.badge = badge;
        count
    }

    /// Asks all threads to stop. It waits for nobody, and takes no memory.
    pub fn ask_stop<K: Kind>(&self, pass: &mut Pass<J, K>)
        ensures { pass.new ≡ asked_of pass.old }
    {
        let badge = mem::replace(&mut pass.badge, Badge::blank());
        pass.badge = self.ask(badge);
    }

    /// Whether a stop was asked. It waits for nobody, and takes no memory.
    pub fn stop_asked<K: Kind>(&self, pass: &mut Pass<J, K>) -> bool
        ensures pass { pass.new ≡ heard_of result pass.old }
        ensures asked { pass.old.asked ≡ true → result ≡ true }
        ensures heard { pass.old.heard ≡ true → result ≡ true }
    {
        let badge = mem::replace(&mut pass.badge, Badge::blank());
        let (badge, answer) = self.hear(badge);
        pass.badge = badge;
        answer
    }
}
