//! A client between two asks.
ghost use Rattle.std.specs.Prelude.{◌≡◌, ◌≢◌, ◌≤◌, ◌<◌, IfOk, true, vec_capacity};
ghost use Rattle.vr_base.specs.Groups.{is_size};
ghost use Rattle.vr_edge.specs.declared.link.TheConstants.{RECEIVE_ROOM};

use std::alloc::Global;
use vr_base::{NoMemory, Version};
use vr_edge::RECEIVE_ROOM;

/// A client of a group between two asks. It asks one member at a time, whose port it keeps.
#[derive(Debug, Drop)]
pub struct ClientCore {
    pub(crate) alloc: Global,
    /// Of its frames.
    pub(crate) version: Version,
    pub(crate) cluster: u64,
    pub(crate) id: u64,
    pub(crate) n: u8,
    /// The port that it asks.
    pub(crate) port: u32,
    /// The number of the next request.
    pub(crate) number: u64,
    /// Room for what comes.
    pub(crate) to: Vec<u8>,
    /// The bytes of the last request.
    pub(crate) bytes: Vec<u8>,
    ghost within: { port < n },
    ghost room: { RECEIVE_ROOM ≤ vec_capacity to },
}

impl ClientCore {
    ghost use Rattle.vr_client.specs.Acts.{IsNew};

    /// The client `id` of a group of `n`, before its first ask. It asks in frames of this version, first the member with port 0,
    /// and its next request has number 0.
    #[tactic(auto, using(std::proofs::lemmas::Grind::common_steps, crate::proofs::Sizes::asks_one))]
    pub fn new(
        alloc: Global,
        cluster: u64,
        id: u64,
        n: u8,
        version: Version,
    ) -> Result<ClientCore, NoMemory>
        requires id { id ≢ 0 }
        requires size { is_size version n ≡ true }
        ensures { IfOk result (IsNew version cluster id n) }
    {
        Ok(ClientCore {
            alloc,
            version,
            cluster,
            id,
            n,
            port: 0,
            number: 0,
            to: Vec::with_capacity(alloc, RECEIVE_ROOM)?,
            bytes: Vec::new(alloc),
        })
    }

    /// The version of its frames.
    pub fn version(&self) -> Version
        ensures { result ≡ self.now.version }
    {
        self.version
    }
}
