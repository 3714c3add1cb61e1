//! A clock in memory.
ghost use Rattle.std.specs.Prelude.{◌≡◌, Some, drop};

use crate::Clock;
use vr_base::Seq;

/// A clock that gives the numbers of a list, then its last number again and again, and 0 where the list is empty.
#[derive(Drop)]
pub struct MemClock {
    numbers: Seq<u64>,
    at: usize,
}

impl MemClock {
    /// A clock that gives these numbers, one a call.
    pub fn new(numbers: Vec<u64>) -> MemClock
        ensures { ⟦<MemClock as Clock>⟧.left result ≡ Some numbers.items }
    {
        MemClock {
            numbers: Seq::from_vec(numbers),
            at: 0,
        }
    }
}

impl Clock for MemClock {
    ghost left = { λ c. Some (drop c.at c.numbers) };

    #[tactic(auto, using(std::proofs::lemmas::Grind::common_steps, crate::proofs::Numbers::next_of_rest, crate::proofs::Numbers::after_moves, crate::proofs::Numbers::after_stays))]
    fn now(&mut self) -> u64 {
        let number = self.numbers.get(self.at).unwrap_or(0);
        if self.at < self.numbers.len().saturating_sub(1) {
            self.at += 1;
        }
        number
    }
}
