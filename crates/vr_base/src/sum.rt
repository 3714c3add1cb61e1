//! Names of bytes.
ghost use Rattle.std.specs.Prelude.{◌≡◌, ◌≤◌, ◌++◌, length, nat_eq, take};
ghost use Rattle.std.specs.Cmp.Lexicographic.{pointwise};
ghost use Rattle.std.specs.Cmp.Rules.{comparing};
ghost use Rattle.std.specs.Ordering.{on};
ghost use Rattle.std.proofs.Common.{rules};
ghost use Rattle.vr_base.specs.Bytes.{name_of};

use crate::fields::u64_at;
use sha2::{Digest, Sha256};

/// The name of some bytes: the first 16 bytes of their SHA-256 (FIPS 180-4).
#[derive(Clone, Copy, Debug)]
pub struct Sum(pub [u8; 16]);

impl PartialEq for Sum {
    ghost eq = { on (λ sum. sum.0) (pointwise nat_eq) };

    ghost laws = { Prim.search (comparing, rules) };

    fn eq(&self, other: &Sum) -> bool {
        same(&self.0, &other.0)
    }
}

impl Eq for Sum {
    ghost laws = { Prim.search (comparing, rules) };
}

/// Whether the bytes of two names are the same. Names are compared often, so each is taken as two numbers of eight bytes,
/// and no slices are compared.
#[tactic(auto, using(crate::proofs::SameNames::same_by_back, crate::proofs::SameNames::other_by_front))]
fn same(a: &[u8; 16], b: &[u8; 16]) -> bool
    ensures { result ≡ pointwise nat_eq a.now b.now }
{
    u64_at(a, 0) == u64_at(b, 0) && u64_at(a, 8) == u64_at(b, 8)
}

/// The name of these bytes.
#[tactic(auto, unfolding(crate::specs::Bytes::name_of))]
pub fn checksum(bytes: &[u8]) -> Sum
    ensures { result.0 ≡ name_of bytes.now }
{
    front(&Sha256::digest(bytes))
}

/// The name of three pieces taken as one.
#[tactic(auto, unfolding(crate::specs::Bytes::name_of))]
pub fn checksum_of_parts(first: &[u8], second: &[u8], third: &[u8]) -> Sum
    ensures { result.0 ≡ name_of (first.now ++ (second.now ++ third.now)) }
{
    let mut hasher = Sha256::new();
    hasher.update(first);
    hasher.update(second);
    hasher.update(third);
    front(&hasher.finalize())
}

fn front(digest: &[u8]) -> Sum
    requires { 16 ≤ length digest.now }
    ensures { result.0 ≡ take 16 digest.now }
{
    Sum(sixteen(&digest[..16]))
}

/// These 16 bytes as an array.
pub(crate) fn sixteen(bytes: &[u8]) -> [u8; 16]
    requires { length bytes.now ≡ 16 }
    ensures { result ≡ bytes.now }
{
    let mut array = [0; 16];
    array.copy_from_slice(bytes);
    array
}
