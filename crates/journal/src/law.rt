ghost use Rattle.std.specs.Prelude.{◌≡◌, ℕ, List};
ghost use Rattle.journal.specs.Records.{StandsFor};
ghost use Rattle.journal.specs.WholeRecords.{FirstLeadsOthers, BeginWithFirst, OneInFront, ClosedBeginsNone, NoneIsNotSome};

/// Bytes stand for at most one list of payloads.
pub fn one_meaning()
    ensures { (bytes : List ℕ) (one two : List (List ℕ)) → StandsFor bytes one → StandsFor bytes two → one ≡ two }
{}

/// Bytes are read one record after another: what the first record says about the payloads that the bytes stand for.
pub fn records_lead()
    ensures first { FirstLeadsOthers }
    ensures begins { BeginWithFirst }
    ensures one { OneInFront }
    ensures closed { ClosedBeginsNone }
    ensures none { NoneIsNotSome }
{}
