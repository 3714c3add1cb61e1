//! What comes over a link in memory, and what fails on it.
ghost use Rattle.std.specs.Prelude.{◌≡◌, ◌≤◌, [], IfOk, None, vec_capacity};
ghost use Rattle.std.specs.Option.{option_copied};
ghost use Rattle.vr_edge.specs.Datagrams.{received_by};

use crate::calls::is_listed;
use crate::link::RECEIVE_ROOM;
use crate::{Datagram, LinkFailed, Received};
use std::alloc::Global;

/// What comes over a link in memory and what fails on it, by the numbers of the calls of each kind, from 0.
#[derive(Drop)]
pub struct LinkScript {
    /// The datagram that waits at each receive, `None` where none does. None waits past the list.
    pub arrivals: Vec<Option<Datagram>>,
    pub failing_attaches: Vec<u64>,
    pub failing_sends: Vec<u64>,
    pub failing_receives: Vec<u64>,
}

impl LinkScript {
    ghost use Rattle.vr_edge.specs.Receiving.{waiting_at, arrival_at};

    /// Nothing comes, and nothing fails.
    pub fn quiet(alloc: Global) -> LinkScript
        ensures arrivals { result.arrivals.items ≡ [] }
        ensures attaches { result.failing_attaches.items ≡ [] }
        ensures sends { result.failing_sends.items ≡ [] }
        ensures receives { result.failing_receives.items ≡ [] }
    {
        LinkScript {
            arrivals: Vec::new(alloc),
            failing_attaches: Vec::new(alloc),
            failing_sends: Vec::new(alloc),
            failing_receives: Vec::new(alloc),
        }
    }

    /// The datagram that waits at the receive with this number.
    fn waiting(&self, call: u64) -> Option<&Datagram>
        ensures { option_copied result ≡ waiting_at self.now call }
    {
        match self.arrivals.get(call as usize) {
            Some(Some(datagram)) => Some(datagram),
            _ => None,
        }
    }

    /// What the receive with this number gives, into a buffer with room.
    #[tactic(auto, using(std::proofs::lemmas::Grind::common_steps, crate::proofs::Receiving::take_most), unfolding(crate::specs::Receiving::arrival_at))]
    pub fn give(&self, call: u64, to: &mut Vec<u8>) -> Result<Received, LinkFailed>
        requires { RECEIVE_ROOM ≤ vec_capacity to.old }
        ensures gives { received_by result to.new.items ≡ arrival_at self.now call }
        ensures quiet { IfOk result (λ r. r ≡ Received.Quiet → waiting_at self.now call ≡ None) }
        ensures room { RECEIVE_ROOM ≤ vec_capacity to.new }
    {
        to.clear();
        if is_listed(&self.failing_receives, call) {
            return Err(LinkFailed);
        }
        let Some(datagram) = self.waiting(call) else {
            return Ok(Received::Quiet);
        };
        let count = datagram.bytes.len().min(RECEIVE_ROOM);
        to.extend_from_slice(&datagram.bytes.as_slice()[..count])
            .unwrap();
        Ok(Received::Datagram(datagram.port))
    }
}
