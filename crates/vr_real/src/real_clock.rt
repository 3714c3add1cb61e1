//! The system's clock.
ghost use Rattle.std.specs.Prelude.{◌≡◌, None};

use std::time;
use vr_edge::Clock;
use vr_io_policy::millis_of;

/// The milliseconds of a clock that doesn't go back. Where it fails, its last number comes again.
#[derive(Drop)]
pub struct RealClock<R> {
    clock: R,
    last: u64,
}

impl<R> RealClock<R> {
    /// The clock of the system that is handed in.
    pub fn new(clock: R) -> RealClock<R>
        ensures { result ≡ record { clock = clock; last = 0 } }
    {
        RealClock { clock, last: 0 }
    }
}

impl<R: time::Clock> Clock for RealClock<R> {
    ghost left = { λ _. None };

    fn now(&mut self) -> u64 {
        self.last = millis_of(self.clock.monotonic(), self.last);
        self.last
    }
}
