//! The milliseconds of a clock that may fail.
ghost use Rattle.std.specs.Prelude.{◌≡◌, ◌-◌, ◌/◌, ◌^◌, IfOk, IsErr, min};
ghost use Rattle.std.specs.Duration.{as_nanos};

use std::io;
use std::time::Duration;

/// The milliseconds that a clock gave. Where it failed, the last ones come again.
pub fn millis_of(given: io::Result<Duration>, last: u64) -> u64
    ensures given { IfOk given (λ time. result ≡ min (as_nanos time / 1000000) (2 ^ 64 - 1)) }
    ensures failed { IsErr given → result ≡ last }
{
    match given {
        Ok(time) => u64::try_from(time.as_millis()).unwrap_or(u64::MAX),
        Err(_) => last,
    }
}
