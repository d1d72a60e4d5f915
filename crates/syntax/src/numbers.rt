//! The values of digits.
ghost use Rattle.std.specs.Prelude.{◌≡◌, ◌≢◌, ◌<◌, ◌≤◌, [], pos, MatchOption};
ghost use Rattle.std.specs.Str.Parse.{digits_value};
ghost use Rattle.syntax.specs.Tokens.{AreDigits, GREATEST};

/// The value of these digits, or `None` if it is too large.
pub(crate) fn number(digits: &str) -> Option<i64>
    requires digits { AreDigits digits.now }
    requires some { digits.now ≢ [] }
    ensures { MatchOption result (GREATEST < digits_value 10 digits.now)
        (λ value. (digits_value 10 digits.now ≤ GREATEST) × (value ≡ pos (digits_value 10 digits.now))) }
{
    digits.parse::<i64>().ok()
}
