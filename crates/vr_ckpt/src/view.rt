//! What a whole block says of itself.
ghost use Rattle.std.specs.Prelude.{◌≡◌, ◌≤◌, ◌+◌, length, IfSome};
ghost use Rattle.vr_base.specs.Bytes.{piece};
ghost use Rattle.vr_ckpt.specs.Blocks.{named};
ghost use Rattle.vr_ckpt.specs.Grid.{IsWhole};

use crate::Name;
use crate::block::PAYLOAD_AT;
use vr_base::u64_at;

/// What a whole block says of itself.
#[derive(Clone, Copy)]
pub struct BlockView<'a> {
    /// The checkpoint that wrote it.
    pub op: u64,
    /// `DATA` or `ROOT`.
    pub kind: u8,
    pub payload: &'a [u8],
}

// The payload of this length.
#[tactic(auto, unfolding(vr_base::specs::Bytes::piece))]
fn payload_of(block: &[u8], size: usize) -> &[u8]
    requires { 128 + size ≤ length block.now }
    ensures { result.now ≡ piece 128 size block.now }
{
    let (_, rest) = block.split_at(PAYLOAD_AT);
    let (payload, _) = rest.split_at(size);
    payload
}

/// What the whole block of this name says, with a payload of this length.
pub fn view_of<'a>(block: &'a [u8], name: &Name, size: usize) -> BlockView<'a>
    requires { IsWhole name.now block.now size }
    ensures op { IfSome (named name.now block.now) (λ c. result.op ≡ c.op) }
    ensures kind { IfSome (named name.now block.now) (λ c. result.kind ≡ c.kind) }
    ensures payload { IfSome (named name.now block.now) (λ c. result.payload.now ≡ c.payload) }
{
    BlockView {
        op: u64_at(block, 88),
        kind: block[111],
        payload: payload_of(block, size),
    }
}
