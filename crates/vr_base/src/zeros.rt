//! Zeros.
ghost use Rattle.std.specs.Prelude.{◌≡◌, ◌==◌};
ghost use Rattle.vr_base.specs.Bytes.{is_zeros};

/// Whether each of the bytes is zero. The first one is looked at before the others, since most bytes that aren't zeros
/// begin with another one.
pub fn is_zeros(bytes: &[u8]) -> bool
    ensures { result ≡ is_zeros bytes.now }
{
    match bytes {
        [] => true,
        [first, ..] => *first == 0 && bits_of(bytes) == 0,
    }
}

/// The bits that are set in any of the bytes. The loop never stops early, so that many bytes are taken at a time.
#[tactic(auto, using(crate::proofs::ZeroLaws::zeros_more, crate::proofs::ZeroLaws::or_zeros))]
fn bits_of(bytes: &[u8]) -> u8
    ensures { (result == 0) ≡ is_zeros bytes.now }
{
    let mut bits = 0;
    for byte in bytes {
        bits |= *byte;
    }
    bits
}
