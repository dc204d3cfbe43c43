ghost use Rattle.std.specs.Prelude.{◌≡◌};
ghost use Rattle.mystery_io.specs.Counts.{is_planned};

/// Tells whether the call with this number is among those that fail.
pub(crate) fn is_planned(failing: &[u32], call: u64) -> bool
    ensures { result ≡ is_planned failing.now call }
{
    failing.iter().any(|number| u64::from(*number) == call)
}
