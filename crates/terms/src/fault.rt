ghost use Rattle.std.specs.Prelude.{◌≡◌, ◌≤◌, ◌<◌, ◌⊎◌, IfSome, IfNone};
ghost use Rattle.terms.specs.Fault.{fault_number};

/// Why an instance of a step is at fault. All kinds but `DoublePut` come from the step's body.
#[derive(Clone, Copy, Debug, PartialEq, Eq, PartialOrd, Ord)]
pub enum FaultKind {
    /// A sum, difference, product, negation or quotient lies outside 64 bits.
    Overflow,
    /// A quotient or a remainder by 0.
    DivisionByZero,
    /// More statements and turns of loops than one instance may take.
    Budget,
    /// An item that the instance puts is there already, or stands twice among its puts.
    DoublePut,
    /// More puts than one instance may make.
    TooManyPuts,
}

impl FaultKind {
    /// Its number in bytes and reports: 1 to 5, in the order above.
    pub fn number(self) -> u8
        ensures number { result ≡ fault_number self }
        ensures within { (1 ≤ result) × (result ≤ 5) }
    {
        match self {
            FaultKind::Overflow => 1,
            FaultKind::DivisionByZero => 2,
            FaultKind::Budget => 3,
            FaultKind::DoublePut => 4,
            FaultKind::TooManyPuts => 5,
        }
    }

    /// The kind with this number, if it is 1 to 5.
    pub fn numbered(number: u8) -> Option<FaultKind>
        ensures some { IfSome result (λ kind. fault_number kind ≡ number) }
        ensures none { IfNone result ((number < 1) ⊎ (5 < number)) }
    {
        match number {
            1 => Some(FaultKind::Overflow),
            2 => Some(FaultKind::DivisionByZero),
            3 => Some(FaultKind::Budget),
            4 => Some(FaultKind::DoublePut),
            5 => Some(FaultKind::TooManyPuts),
            _ => None,
        }
    }
}
