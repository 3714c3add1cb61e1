//! Whether bytes are the whole block of a name.
ghost use Rattle.std.specs.Prelude.{◌≡◌, ◌<◌, ◌≤◌, ◌-◌, length, Ok, nat_eq, ◌==◌, ◌&&◌};
ghost use Rattle.std.specs.Option.{option_map};
ghost use Rattle.std.specs.Cmp.Lexicographic.{pointwise};
ghost use Rattle.vr_base.specs.Bytes.{piece};
ghost use Rattle.vr_header.specs.Names.{header_name};
ghost use Rattle.vr_header.specs.Same.{same_header};
ghost use Rattle.vr_header.specs.Spelling.{decoded};
ghost use Rattle.vr_ckpt.specs.Blocks.{block_header, is_block, is_kind, named};
ghost use Rattle.vr_disk.specs.Untouched.{Untouched};

use crate::block::header_over;
use crate::{BLOCK_SIZE, Name, PAYLOAD_AT};
use vr_base::{is_zeros, sum_at};
use vr_disk::{BLOCKS, Room, SectorDisk};
use vr_header::{HEADER_SIZE, Header, NAMED_AT, decode_by};

fn is_kind(kind: u8) -> bool
    ensures { result ≡ is_kind kind }
{
    kind == 2 || kind == 3
}

// The header is that of a block with this payload.
#[tactic(auto, unfolding(vr_header::specs::Same::same_header))]
fn is_over<D: SectorDisk>(disk: &mut D, h: &Header, payload: &[u8]) -> bool
    requires { length payload.now ≤ 3968 }
    ensures value { result ≡ same_header h.now (block_header (record { cluster = h.now.cluster; address = h.now.aux; op = h.now.op; kind = h.now.kind; payload = payload.now })) }
    ensures untouched { Untouched D.SectorDisk disk.old disk.new }
    ensures reads { D.read_faults disk.new ≡ D.read_faults disk.old }
{
    let body = disk.name_of(Room::Payload(h.aux), payload);
    *h == header_over(h.cluster, h.aux, h.op, h.kind, payload, body)
}

// The header is that of the payload after it.
#[tactic(auto, unfolding(crate::specs::Blocks::is_block, vr_base::specs::Bytes::piece, vr_header::specs::Same::same_header))]
fn is_block<D: SectorDisk>(disk: &mut D, h: &Header, bytes: &[u8]) -> bool
    requires { length bytes.now ≡ 4096 }
    ensures value { result ≡ is_block h.now bytes.now }
    ensures untouched { Untouched D.SectorDisk disk.old disk.new }
    ensures reads { D.read_faults disk.new ≡ D.read_faults disk.old }
{
    let size = h.size.get();
    if size > BLOCK_SIZE as u32 {
        return false;
    }
    let end = size as usize;
    let payload = &bytes[PAYLOAD_AT..end];
    is_kind(h.kind)
        && h.aux < u64::from(BLOCKS)
        && is_zeros(&bytes[end..])
        && is_over(disk, h, payload)
}

// The header that these bytes begin with is that of the name.
fn has_name(h: &Header, bytes: &[u8], name: &Name) -> bool
    requires size { length bytes.now ≡ 4096 }
    requires read { decoded bytes.now ≡ Ok h.now }
    ensures { result ≡ ((h.now.aux == name.now.address) && pointwise nat_eq (header_name h.now).0 name.now.sum.0) }
{
    h.aux == name.address && sum_at(bytes, 0) == name.sum
}

// The length of the payload, where the header is that of the payload after it and has the name.
fn payload_behind<D: SectorDisk>(
    disk: &mut D,
    h: Header,
    bytes: &[u8],
    name: &Name,
) -> Option<usize>
    requires size { length bytes.now ≡ 4096 }
    requires read { decoded bytes.now ≡ Ok h }
    ensures value { result ≡ option_map (λ c. length c.payload) (named name.now bytes.now) }
    ensures untouched { Untouched D.SectorDisk disk.old disk.new }
    ensures reads { D.read_faults disk.new ≡ D.read_faults disk.old }
{
    if is_block(disk, &h, bytes) && has_name(&h, bytes, name) {
        Some(h.size.get() as usize - PAYLOAD_AT)
    } else {
        None
    }
}

/// The length of the payload of the whole block of this name that the bytes are; none where they aren't.
#[tactic(auto, unfolding(vr_base::specs::Bytes::piece))]
pub fn payload_of<D: SectorDisk>(disk: &mut D, bytes: &[u8], name: &Name) -> Option<usize>
    requires { length bytes.now ≡ 4096 }
    ensures value { result ≡ option_map (λ c. length c.payload) (named name.now bytes.now) }
    ensures untouched { Untouched D.SectorDisk disk.old disk.new }
    ensures reads { D.read_faults disk.new ≡ D.read_faults disk.old }
{
    let front = disk.name_of(
        Room::BlockHeader(name.address),
        &bytes[NAMED_AT..HEADER_SIZE],
    );
    match decode_by(bytes, front) {
        Err(_) => None,
        Ok(header) => payload_behind(disk, header, bytes, name),
    }
}
