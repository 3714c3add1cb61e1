//! Where the payloads of a checkpoint's texts stand: each has a lower and an upper place in the grid.
ghost use Rattle.std.specs.Prelude.{◌≡◌, ◌<◌, ◌+◌};
ghost use Rattle.vr_ckpt.specs.Places.{HasRoom, IsLower, first_place, is_place, keys_places, other_place, place_of, root_place, sessions_places, twin};

use vr_disk::BLOCKS;

/// How many payloads the sessions' text has at most.
pub const SESSION_PAYLOADS: usize = 49;

/// How many payloads the keys' text has at most.
pub const KEY_PAYLOADS: usize = 99;

/// The lower places of a text's payloads: those of the first `few` from `low` on, and those of the others from `later` on.
#[derive(Clone, Copy)]
pub struct Places {
    pub low: u64,
    pub few: usize,
    pub later: u64,
}

impl Places {
    /// Those of the sessions' text.
    pub fn of_sessions() -> Places
        ensures { result ≡ sessions_places }
    {
        Places {
            low: 1,
            few: 9,
            later: 128,
        }
    }

    /// Those of the keys' text.
    pub fn of_keys() -> Places
        ensures { result ≡ keys_places }
    {
        Places {
            low: 10,
            few: 36,
            later: 168,
        }
    }

    /// The lower place of the i-th payload.
    #[tactic(auto, unfolding(crate::specs::Places::place_of))]
    pub fn of(self, i: usize) -> u64
        requires { HasRoom self (i + 1) }
        ensures value { result ≡ place_of self i }
        ensures lower { IsLower result }
    {
        if i < self.few {
            self.low + i as u64
        } else {
            self.later + (i - self.few) as u64
        }
    }
}

// The upper place, by the lower one.
fn twin(low: u64) -> u64
    requires { IsLower low }
    ensures value { result ≡ twin low }
    ensures within { result < BLOCKS }
{
    if low < 128 { low + 64 } else { low + 128 }
}

/// Where a payload goes that the checkpoint before didn't have.
pub fn first_place(op: u64, low: u64) -> u64
    requires { IsLower low }
    ensures value { result ≡ first_place op low }
    ensures within { result < BLOCKS }
{
    if op / 32 % 2 == 0 { low } else { twin(low) }
}

/// Where a payload goes that the checkpoint before had at this address.
pub fn other_place(low: u64, address: u64) -> u64
    requires { IsLower low }
    ensures value { result ≡ other_place low address }
    ensures within { result < BLOCKS }
{
    if address == low { twin(low) } else { low }
}

/// Whether an address is one of the two places.
pub fn is_place(low: u64, address: u64) -> bool
    requires { IsLower low }
    ensures { result ≡ is_place low address }
{
    address == low || address == twin(low)
}

/// The place of a checkpoint's root.
pub fn root_place(op: u64) -> u64
    ensures value { result ≡ root_place op }
    ensures within { result < BLOCKS }
{
    64 * (op / 32 % 2)
}
