//! The numbers of the clients' next requests.
ghost use Rattle.std.specs.Prelude.{◌≡◌, ◌<◌, ◌++◌, ◌∷◌, [], List, slice_index};
ghost use Rattle.vr_draws.specs.Asking.{answers, next_request, next_requests, next_after};
ghost use Rattle.vr_msg.specs.declared.output.Output as put;

use std::cmp::max;
use std::marker::Model;
use vr_msg::{Output, ReplyKind};

/// The numbers of the next requests of the clients 1 to 4, 0 for one that has no session yet.
#[derive(Debug, Drop)]
pub struct Requests {
    next: [u32; 4],
}

impl Model for Requests {
    ghost use Rattle.std.specs.Prelude.{ℕ, List};

    ghost Value = { List ℕ };

    ghost view = { λ r. r.next };
}

/// The number of the request that an output answers with an outcome, where it goes to this client.
fn answered(client: u64, output: &Output) -> Option<u32>
    ensures { result ≡ answers client output.now }
{
    let Output::Reply(reply) = output else {
        return None;
    };
    let fields = reply.fields();
    match &fields.kind {
        ReplyKind::Outcome(_) if fields.client == client => Some(fields.request),
        _ => None,
    }
}

/// The number of a client's next request after an output.
fn next_after(client: u64, output: &Output, next: u32) -> u32
    ensures { result ≡ next_after client output.now next }
{
    match answered(client, output) {
        Some(request) => max(next, request.saturating_add(1)),
        None => next,
    }
}

impl Requests {
    /// No client has a session yet.
    #[tactic(auto, unfolding(crate::specs::Asking::next_request))]
    pub fn new() -> Requests
        ensures { result ≡ next_requests [] }
    {
        Requests { next: [0; 4] }
    }

    /// The number of the next request of one of the clients, counted from 0.
    pub fn get(&self, client: usize) -> u32
        requires { client < 4 }
        ensures { result ≡ slice_index self.now client }
    {
        self.next[client]
    }

    /// One more output was put out.
    #[tactic(auto, using(std::proofs::lemmas::Grind::common_steps, crate::proofs::Answered::request_more))]
    pub fn hear(&mut self, output: &Output)
        ensures { (before : List put.Output) → self.old ≡ next_requests before → self.new ≡ next_requests (before ++ output.now ∷ []) }
    {
        let [first, second, third, fourth] = self.next;
        self.next = [
            next_after(1, output, first),
            next_after(2, output, second),
            next_after(3, output, third),
            next_after(4, output, fourth),
        ];
    }
}
