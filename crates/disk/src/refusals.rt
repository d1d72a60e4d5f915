ghost use Rattle.std.specs.Prelude.{◌≢◌};

/// The number of refusals after one more, which is a different number. After the greatest comes 0.
pub(crate) fn one_more(refusals: u64) -> u64
    ensures { result ≢ refusals }
{
    refusals.wrapping_add(1)
}
