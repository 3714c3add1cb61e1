//! A clock.
ghost use Rattle.std.specs.Prelude.{List, ℕ, Option};
ghost use Rattle.vr_edge.specs.Told.{GivesNext};

/// What tells the time.
pub trait Clock {
    /// The numbers that are left to give, where the clock tells them: one a call, the last one again and again.
    ghost left: { Self → Option (List ℕ) };

    /// The time in milliseconds. No number is promised to be at least the one before.
    fn now(&mut self) -> u64
        ensures { GivesNext (left self.old) (left self.new) result };
}
