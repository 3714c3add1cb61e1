//! A block as it is written.
ghost use Rattle.std.specs.Prelude.{◌≡◌, ◌≤◌, ◌<◌, length, IfOk, is_some, true};
ghost use Rattle.vr_base.specs.Bytes.{name_of};
ghost use Rattle.vr_ckpt.specs.Blocks.{block_header, block_of, content_of, is_kind};

use crate::Name;
use std::alloc::{AllocError, Global};
use vr_base::{ByteList, Seq, Sum, Version, checksum, sum_at};
use vr_disk::BLOCKS;
use vr_header::{Command, HEADER_SIZE, Header, Size, encode};

/// The kind of a block with a part of a text.
pub const DATA: u8 = 2;

/// The kind of a block that names the others of its checkpoint.
pub const ROOT: u8 = 3;

/// How many bytes a block has.
pub const BLOCK_SIZE: usize = 4096;

/// The greatest number of bytes in a payload.
pub const PAYLOAD_SIZE: usize = 3968;

/// Where the payload begins in a block.
pub const PAYLOAD_AT: usize = 128;

/// A block as it is written: its name and its 4,096 bytes.
#[derive(Debug, Drop, PartialEq, Eq)]
pub struct Block {
    pub name: Name,
    pub bytes: ByteList,
}

/// The header of a block.
pub(crate) fn block_header(cluster: u64, address: u64, op: u64, kind: u8, payload: &[u8]) -> Header
    requires { length payload.now ≤ 3968 }
    ensures { result ≡ block_header (record { cluster = cluster; address = address; op = op; kind = kind; payload = payload.now }) }
{
    header_over(cluster, address, op, kind, payload, checksum(payload))
}

/// The header of a block whose payload has this name.
#[tactic(auto, unfolding(crate::specs::Blocks::block_header))]
pub(crate) fn header_over(
    cluster: u64,
    address: u64,
    op: u64,
    kind: u8,
    payload: &[u8],
    body: Sum,
) -> Header
    requires size { length payload.now ≤ 3968 }
    requires body { body.0 ≡ name_of payload.now }
    ensures { result ≡ block_header (record { cluster = cluster; address = address; op = op; kind = kind; payload = payload.now }) }
{
    Header {
        body,
        parent: Sum([0; 16]),
        request_name: Sum([0; 16]),
        cluster,
        client: 0,
        request: 0,
        view: 0,
        op,
        commit: 0,
        size: Size::new(HEADER_SIZE as u32 + payload.len() as u32),
        command: Command::Block,
        replica: 0,
        version: Version::new(1),
        kind,
        aux: address,
    }
}

impl Block {
    /// The block of checkpoint `op` at an address below 384, of this kind (`DATA` or `ROOT`), with a payload of at
    /// most 3,968 bytes.
    #[tactic(auto, unfolding(crate::specs::Blocks::block_of, crate::specs::Blocks::block_bytes))]
    pub fn new(
        alloc: Global,
        cluster: u64,
        address: u64,
        op: u64,
        kind: u8,
        payload: &[u8],
    ) -> Result<Block, AllocError>
        requires payload { length payload.now ≤ 3968 }
        ensures value { IfOk result (λ b. b ≡ block_of (record { cluster = cluster; address = address; op = op; kind = kind; payload = payload.now })) }
        ensures size { IfOk result (λ b. length b.bytes ≡ 4096) }
        ensures whole { IfOk result (λ b. address < BLOCKS → is_kind kind ≡ true → is_some (content_of b.bytes) ≡ true) }
    {
        let header = block_header(cluster, address, op, kind, payload);
        let front = encode(&header);
        let sum = sum_at(&front, 0);
        let mut bytes = Vec::with_capacity(alloc, BLOCK_SIZE)?;
        bytes.extend_from_slice(&front)?;
        bytes.extend_from_slice(payload)?;
        bytes.resize(BLOCK_SIZE, 0)?;
        Ok(Block {
            name: Name { address, sum },
            bytes: Seq::from_vec(bytes),
        })
    }
}
