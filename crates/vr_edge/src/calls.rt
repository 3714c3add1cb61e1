//! The calls that fail, by their numbers, and how often one has failed.
ghost use Rattle.std.specs.Prelude.{◌≡◌, if◌then◌else◌};
ghost use Rattle.vr_base.specs.Causes.{HasCause};
ghost use Rattle.vr_edge.specs.Counts.{is_listed};

/// Whether the call with this number is among these.
pub fn is_listed(calls: &[u64], call: u64) -> bool
    ensures { result ≡ is_listed calls.now call }
{
    calls.contains(&call)
}

/// What the call with this number answers: this fault where it is among those that fail.
pub fn answer<E: Copy>(failing: &[u64], call: u64, fault: E) -> Result<(), E>
    ensures { result ≡ (if is_listed failing.now call then Err fault else Ok (record {})) }
{
    if is_listed(failing, call) {
        Err(fault)
    } else {
        Ok(())
    }
}

/// Counts a call that failed.
pub fn count_fault<T, E>(faults: &mut u64, given: &Result<T, E>)
    ensures { HasCause faults.old faults.new given.now }
{
    if given.is_err() {
        *faults = faults.saturating_add(1);
    }
}
