ghost use Rattle.std.specs.Prelude.{◌≡◌, ◌≢◌, ◌≤◌, length};
ghost use Rattle.terms.specs.declared.fault.FaultKind.TheVariants.{DoublePut};
ghost use Rattle.terms.specs.declared.put.TheConstants.{MOST_PUTS};
ghost use Rattle.steptree.specs.Bodies.{Along, Gives, Faults};

use std::marker::Model;
use steptree::{Checked, ends_within_limits};
use terms::{Addr, FaultKind, Inst, Puts};

/// The items that an instance read, in order, each an address and its value.
#[derive(Drop)]
pub struct Reads {
    reads: Vec<(Addr, i64)>,
}

impl Model for Reads {
    ghost use Rattle.std.specs.Prelude.{List};
    ghost use Rattle.steptree.specs.Run.{Read};

    ghost Value = { List Read };

    ghost view = { λ r. r.reads.items };
}

impl Reads {
    /// These reads. It does not allocate.
    pub(crate) fn new(reads: Vec<(Addr, i64)>) -> Self
        ensures { result ≡ reads.items }
    {
        Reads { reads }
    }

    /// The reads, in order.
    pub fn as_slice(&self) -> &[(Addr, i64)]
        ensures { result.now ≡ self.now }
    {
        &self.reads
    }
}

/// An instance whose body gave puts. `along` is the proof that it ends so along its reads, in order.
#[derive(Drop)]
pub struct Given<'a> {
    pub checked: &'a Checked,
    pub instance: Inst,
    pub reads: Reads,
    pub puts: Puts,
    pub ghost along: { Along checked.now.body instance.key reads (Gives puts) },
}

impl<'a> Given<'a> {
    /// Its puts, in order.
    pub fn puts(&self) -> &Puts
        ensures puts { result.now ≡ self.now.puts }
        ensures few { length result.now ≤ MOST_PUTS }
    {
        ends_within_limits();
        &self.puts
    }

    /// Takes out its puts.
    pub fn into_puts(self) -> Puts
        ensures puts { result ≡ self.entry.puts }
        ensures few { length result ≤ MOST_PUTS }
    {
        ends_within_limits();
        self.puts
    }
}

/// An instance whose body is at fault. `along` is the proof that it ends so along its reads, in order.
#[derive(Drop)]
pub struct Bad<'a> {
    pub checked: &'a Checked,
    pub instance: Inst,
    pub reads: Reads,
    pub kind: FaultKind,
    pub ghost along: { Along checked.now.body instance.key reads (Faults kind) },
}

impl<'a> Bad<'a> {
    /// The fault.
    pub fn kind(&self) -> FaultKind
        ensures kind { result ≡ self.now.kind }
        ensures of_the_body { result ≢ DoublePut }
    {
        ends_within_limits();
        self.kind
    }
}

/// The result of one call of `advance`.
#[derive(Drop)]
pub enum Turn<'a> {
    /// It asks for an item.
    Need(Addr),
    /// It gave puts.
    Gave(Given<'a>),
    /// It is at fault.
    Fault(Bad<'a>),
}
