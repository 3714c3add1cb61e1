//! What bytes begin with: a number, the highest byte first, or a piece of some length.
ghost use Rattle.std.specs.Prelude.{◌≡◌, Ok, Err, MatchResult};
ghost use Rattle.std.specs.Option.{option_map};
ghost use Rattle.std.specs.Int.{w16, w32, w64};
ghost use Rattle.vr_state.specs.Front.{piece_from, number_from, byte_from};
ghost use Rattle.vr_state.specs.Table.{count_from};

use crate::StateFault;

/// The first `length` bytes and those after them, `None` exactly where there are fewer.
#[tactic(auto, unfolding(crate::specs::Front::piece_from))]
pub fn split_piece(bytes: &[u8], length: usize) -> Option<(&[u8], &[u8])>
    ensures { option_map (λ p. (p.0.now, p.1.now)) result ≡ piece_from length bytes.now }
{
    if bytes.len() < length {
        return None;
    }
    Some((&bytes[..length], &bytes[length..]))
}

/// The first byte and those after it, `None` exactly where there are none.
#[tactic(auto, unfolding(crate::specs::Front::byte_from))]
pub fn split_byte(bytes: &[u8]) -> Option<(u8, &[u8])>
    ensures { option_map (λ p. (p.0, p.1.now)) result ≡ byte_from bytes.now }
{
    match bytes {
        [] => None,
        [byte, rest @ ..] => Some((*byte, rest)),
    }
}

/// The number of the first 2 bytes and the bytes after it, `None` exactly where there are fewer.
#[tactic(auto, unfolding(crate::specs::Front::number_from))]
pub fn split_u16(bytes: &[u8]) -> Option<(u16, &[u8])>
    ensures { option_map (λ p. (p.0, p.1.now)) result ≡ number_from w16 bytes.now }
{
    if bytes.len() < 2 {
        return None;
    }
    let mut field = [0; 2];
    field.copy_from_slice(&bytes[..2]);
    Some((u16::from_be_bytes(field), &bytes[2..]))
}

/// The number of the first 4 bytes and the bytes after it, `None` exactly where there are fewer.
#[tactic(auto, unfolding(crate::specs::Front::number_from))]
pub fn split_u32(bytes: &[u8]) -> Option<(u32, &[u8])>
    ensures { option_map (λ p. (p.0, p.1.now)) result ≡ number_from w32 bytes.now }
{
    if bytes.len() < 4 {
        return None;
    }
    let mut field = [0; 4];
    field.copy_from_slice(&bytes[..4]);
    Some((u32::from_be_bytes(field), &bytes[4..]))
}

/// The number of the first 8 bytes and the bytes after it, `None` exactly where there are fewer.
#[tactic(auto, unfolding(crate::specs::Front::number_from))]
pub fn split_u64(bytes: &[u8]) -> Option<(u64, &[u8])>
    ensures { option_map (λ p. (p.0, p.1.now)) result ≡ number_from w64 bytes.now }
{
    if bytes.len() < 8 {
        return None;
    }
    let mut field = [0; 8];
    field.copy_from_slice(&bytes[..8]);
    Some((u64::from_be_bytes(field), &bytes[8..]))
}

/// The count that the bytes begin with and the bytes after it; `Torn` where there is none, `TooMany` where it is
/// above the limit.
#[tactic(auto, unfolding(crate::specs::Table::count_from))]
pub fn split_count(bytes: &[u8], limit: u16) -> Result<(u16, &[u8]), StateFault>
    ensures { MatchResult result (λ p. count_from limit bytes.now ≡ Ok (p.0, p.1.now)) (λ fault. count_from limit bytes.now ≡ Err fault) }
{
    match split_u16(bytes) {
        None => Err(StateFault::Torn),
        Some((count, rest)) => {
            if limit < count {
                return Err(StateFault::TooMany);
            }
            Ok((count, rest))
        }
    }
}
