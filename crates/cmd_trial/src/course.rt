//! A trial on its way: its client, and the members that run.
ghost use Rattle.std.specs.Prelude.{◌≡◌, ◌≤◌, IfOk, slice_set, vec_len};
ghost use Rattle.cmd_trial.specs.Parts.{IsFirst};
ghost use Rattle.cmd_trial.specs.Run.{running_at};

use crate::plan::Plan;
use std::alloc::Global;
use vr_base::{NoMemory, Seq, Version};
use vr_client::ClientCore;

/// The client that asks.
const CLIENT: u64 = 1;

/// The version of the members' files, in whose frames it asks.
const VERSION: u8 = 1;

/// A trial on its way.
#[derive(Debug, Drop)]
pub struct Course {
    pub(crate) alloc: Global,
    pub(crate) core: ClientCore,
    /// The numbers that the spawner gave to the members that run, by the members' own.
    pub(crate) running: Seq<Option<u32>>,
}

impl Course {
    /// A course before its first step: its client is client 1 of the plan's group, which has as many members as the plan has addresses.
    /// It asks in frames of version 1, port 0 first, and its next request has number 0. No member runs.
    #[tactic(auto, using(std::proofs::lemmas::Grind::common_steps, vr_base::proofs::Members::is_sized))]
    pub fn new(alloc: Global, plan: &Plan) -> Result<Course, NoMemory>
        requires least { 2 ≤ vec_len plan.now.peers }
        requires most { vec_len plan.now.peers ≤ 6 }
        ensures { IfOk result (IsFirst plan.now) }
    {
        let n = plan.peers.len();
        let mut running = Vec::new(alloc);
        running.resize(n, None)?;
        Ok(Course {
            alloc,
            core: ClientCore::new(alloc, plan.cluster, CLIENT, n as u8, Version::new(VERSION))?,
            running: Seq::from_vec(running),
        })
    }

    /// The number that the spawner gave this member, while it runs; `None` where it doesn't, or where there is no such member.
    pub fn running_at(&self, member: u8) -> Option<u32>
        ensures { result ≡ running_at self.now.running member }
    {
        self.running.get(usize::from(member))?
    }

    /// From now on this member runs by that number, or with `None` not at all. All else stays, and all of it where there is no such
    /// member.
    #[tactic(auto, using(std::proofs::lemmas::Grind::common_steps, crate::proofs::Courses::set_past))]
    pub fn set_running(&mut self, member: u8, id: Option<u32>)
        ensures { self.new ≡ record self.old { running = slice_set self.old.running member id } }
    {
        let at = usize::from(member);
        if at < self.running.len() {
            self.running.replace(at, id);
        }
    }
}
