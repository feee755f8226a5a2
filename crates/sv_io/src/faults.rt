ghost use Rattle.std.specs.Prelude.{◌≡◌};
ghost use Rattle.sv_io.specs.Faults.{raised};

/// A source or a sink failed; its count of faults rose.
#[derive(Clone, Copy, Debug, PartialEq, Eq)]
pub struct Failed;

/// One more; the greatest `u64` stays.
pub(crate) fn raised(count: u64) -> u64
    ensures { result ≡ raised count }
{
    count.saturating_add(1)
}
