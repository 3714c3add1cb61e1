//! Fields at their places in bytes, numbers with the highest byte first.
ghost use Rattle.std.specs.Prelude.{◌≡◌, ◌+◌, ◌≤◌, ◌++◌, length, take, drop};
ghost use Rattle.std.specs.Int.{w16, w32, w64};
ghost use Rattle.vr_base.specs.Bytes.{IsBytes, bytes16, bytes32, bytes64, number, piece};

use crate::Sum;
use crate::sum::sixteen;
use byteorder::{BigEndian, ByteOrder};

/// The number in the two bytes from `at` on.
#[tactic(auto, unfolding(crate::specs::Bytes::number))]
pub fn u16_at(bytes: &[u8], at: usize) -> u16
    requires { at + 2 ≤ length bytes.now }
    ensures { result ≡ number w16 at bytes.now }
{
    let b = &bytes[at..];
    u16::from_be_bytes([b[0], b[1]])
}

/// The number in the four bytes from `at` on.
#[tactic(auto, unfolding(crate::specs::Bytes::number))]
pub fn u32_at(bytes: &[u8], at: usize) -> u32
    requires { at + 4 ≤ length bytes.now }
    ensures { result ≡ number w32 at bytes.now }
{
    let b = &bytes[at..];
    u32::from_be_bytes([b[0], b[1], b[2], b[3]])
}

/// The number in the eight bytes from `at` on.
#[tactic(auto, unfolding(crate::specs::Bytes::number))]
pub fn u64_at(bytes: &[u8], at: usize) -> u64
    requires { at + 8 ≤ length bytes.now }
    ensures { result ≡ number w64 at bytes.now }
{
    let b = &bytes[at..];
    u64::from_be_bytes([b[0], b[1], b[2], b[3], b[4], b[5], b[6], b[7]])
}

/// The name in the 16 bytes from `at` on.
#[tactic(auto, unfolding(crate::specs::Bytes::piece))]
pub fn sum_at(bytes: &[u8], at: usize) -> Sum
    requires { at + 16 ≤ length bytes.now }
    ensures { result.0 ≡ piece at 16 bytes.now }
{
    let (front, _) = bytes[at..].split_at(16);
    Sum(sixteen(front))
}

/// Writes bytes from `at` on; the others stay.
#[tactic(auto, using(crate::proofs::Writing::puts))]
pub fn put(out: &mut [u8], at: usize, bytes: &[u8])
    requires { at + length bytes.now ≤ length out.old }
    ensures front { take (at + length bytes.now) out.new ≡ take at out.old ++ bytes.now }
    ensures back { drop (at + length bytes.now) out.new ≡ drop (at + length bytes.now) out.old }
    ensures each { IsBytes bytes.now }
{
    let end = at + bytes.len();
    out[at..end].copy_from_slice(bytes);
}

/// Writes a number into the two bytes from `at` on.
#[tactic(auto, using(std::proofs::lemmas::Grind::common_steps, crate::proofs::Writing::puts), unfolding(crate::specs::Bytes::bytes16))]
pub fn put_u16(out: &mut [u8], at: usize, n: u16)
    requires { at + 2 ≤ length out.old }
    ensures front { take (at + 2) out.new ≡ take at out.old ++ bytes16 n }
    ensures back { drop (at + 2) out.new ≡ drop (at + 2) out.old }
{
    BigEndian::write_u16(&mut out[at..at + 2], n);
}

/// Writes a number into the four bytes from `at` on.
#[tactic(auto, using(std::proofs::lemmas::Grind::common_steps, crate::proofs::Writing::puts), unfolding(crate::specs::Bytes::bytes32))]
pub fn put_u32(out: &mut [u8], at: usize, n: u32)
    requires { at + 4 ≤ length out.old }
    ensures front { take (at + 4) out.new ≡ take at out.old ++ bytes32 n }
    ensures back { drop (at + 4) out.new ≡ drop (at + 4) out.old }
{
    BigEndian::write_u32(&mut out[at..at + 4], n);
}

/// Writes a number into the eight bytes from `at` on.
#[tactic(auto, using(std::proofs::lemmas::Grind::common_steps, crate::proofs::Writing::puts), unfolding(crate::specs::Bytes::bytes64))]
pub fn put_u64(out: &mut [u8], at: usize, n: u64)
    requires { at + 8 ≤ length out.old }
    ensures front { take (at + 8) out.new ≡ take at out.old ++ bytes64 n }
    ensures back { drop (at + 8) out.new ≡ drop (at + 8) out.old }
{
    BigEndian::write_u64(&mut out[at..at + 8], n);
}

/// Writes a name into the 16 bytes from `at` on.
pub fn put_sum(out: &mut [u8], at: usize, sum: Sum)
    requires { at + 16 ≤ length out.old }
    ensures front { take (at + 16) out.new ≡ take at out.old ++ sum.0 }
    ensures back { drop (at + 16) out.new ≡ drop (at + 16) out.old }
    ensures each { IsBytes sum.0 }
{
    put(out, at, &sum.0);
}
