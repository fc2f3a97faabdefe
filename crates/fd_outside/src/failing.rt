// The calls that are to fail, by their numbers.
ghost use Rattle.std.specs.Prelude.{Contains};
ghost use Rattle.std.specs.Bool.{Decides};

/// Whether the call of this number is one of those that are to fail.
pub(crate) fn is_failing(number: u64, failing: &[u32]) -> bool
    ensures { Decides result (Contains failing.now number) }
{
    failing.iter().any(|n| u64::from(*n) == number)
}
