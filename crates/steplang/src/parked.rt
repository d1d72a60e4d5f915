ghost use Rattle.std.specs.Prelude.{◌≡◌};
ghost use Rattle.steplang.specs.Running.{ValueOf};
ghost use Rattle.steptree.specs.Bodies.{Along, Asks};

use crate::run::Run;
use std::marker::Model;
use terms::{Addr, Inst};

/// An instance whose body asks for an item, with its run, which can go on once the item is there. Clauses see it as an `Asking`: its step, its
/// instance, what it has read, and the item.
#[derive(Drop)]
pub struct Parked<'a> {
    run: Run<'a>,
    address: Addr,
    ghost awaits: { run.awaits ≡ ValueOf address },
    ghost along: { Along run.checked.now.body run.instance.key run.reads (Asks address) },
}

impl<'a> Model for Parked<'a> {
    ghost use Rattle.std.specs.Coded.{codes};
    ghost use Rattle.steptree.specs.contracts.checked.Checked as step;
    ghost use Rattle.steplang.specs.Running.{Asking};

    ghost Value = { Asking };

    ghost coded = { Prim.hlevel (codes, step.the_row.coded) };

    ghost view = { λ p. record { checked = p.run.checked; instance = p.run.instance; reads = p.run.reads; address = p.address } };
}

impl<'a> Run<'a> {
    ghost use Rattle.std.specs.Prelude.{◌≡◌, IsSome};
    ghost use Rattle.steplang.specs.Running.{pending_of, resumed};

    /// Turns a run that asks for an item into a `Parked` instance, which keeps it.
    pub fn park(self) -> Parked<'a>
        requires { IsSome (pending_of self.awaits) }
        ensures parked { self.entry ≡ resumed result }
    {
        let Some(address) = self.asked() else {
            unreachable!()
        };
        Parked { run: self, address }
    }
}

impl<'a> Parked<'a> {
    ghost use Rattle.std.specs.Prelude.{◌≡◌};
    ghost use Rattle.steplang.specs.Running.{resumed};
    ghost use Rattle.steptree.specs.Bodies.{Along, Asks};

    /// The item that the body asks for, along what it has read.
    pub fn address(&self) -> Addr
        ensures address { result ≡ self.now.address }
        ensures along { Along self.now.checked.now.body self.now.instance.key self.now.reads (Asks self.now.address) }
    {
        self.address
    }

    /// The instance.
    pub fn instance(&self) -> Inst
        ensures { result ≡ self.now.instance }
    {
        self.run.instance()
    }

    /// The items that it has read, in order, each an address and its value.
    pub fn reads(&self) -> &[(Addr, i64)]
        ensures { result.now ≡ self.now.reads }
    {
        self.run.reads()
    }

    /// How many statements and turns of loops it has made so far. No clause says it, as of `Run::statements`.
    pub fn statements(&self) -> u32 {
        self.run.statements()
    }

    /// The run that was parked. It goes on with the value of the item.
    pub fn resume(self) -> Run<'a>
        ensures { result ≡ resumed self.entry }
    {
        let Parked { run, address: _ } = self;
        run
    }
}
