//! The lengths of bars.
ghost use Rattle.std.specs.Prelude.{◌≡◌, ◌≤◌};
ghost use Rattle.mimic_reports.specs.Page.{bar_after, bar_of};

// Returns how long the bar of a time is. It grows by 16 each time that the time doubles, so that short and long times can be seen
// side by side.
pub(crate) fn bar_of(nanos: u64) -> u64
    ensures { result ≡ bar_of nanos }
{
    bar_after(64, nanos)
}

// Returns the same for at most this many halvings. A number below 2^64 has no more than 64.
fn bar_after(halvings: u64, nanos: u64) -> u64
    ensures length { result ≡ bar_after halvings nanos }
    ensures short { result ≤ nanos }
{
    if halvings == 0 {
        return nanos;
    }
    if nanos < 32 {
        return nanos;
    }
    16 + bar_after(halvings - 1, nanos / 2)
}
