//! Counts of faults.
ghost use Rattle.std.specs.Prelude.{◌≡◌, ◌+◌, ◌-◌, ◌^◌, IfOk, Ok, OnOk, OnErr, is_ok, min};
ghost use Rattle.vr_base.specs.Causes.{HasCause};

/// The outcome with an error of ours in the place of the system's. An error adds one to the count, which stays at its
/// type's end; where it went well the count stays.
pub fn counted<T, E: Drop, F>(outcome: Result<T, E>, faults: &mut u64, failed: F) -> Result<T, F>
where
    F: Drop,
    ensures cause { HasCause faults.old faults.new result }
    ensures same { is_ok result ≡ is_ok outcome }
    ensures value { IfOk result (λ value. outcome ≡ Ok value) }
    ensures stays { OnOk result (faults.new ≡ faults.old) }
    ensures one { OnErr result (faults.new ≡ min (faults.old + 1) (2 ^ 64 - 1)) }
{
    match outcome {
        Ok(value) => Ok(value),
        Err(_) => {
            *faults = faults.saturating_add(1);
            Err(failed)
        }
    }
}
