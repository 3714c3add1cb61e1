//! Numbers in decimal digits.
ghost use Rattle.std.specs.Prelude.{◌≡◌, ◌<◌};
ghost use Rattle.vr_lines.specs.Numbers.{digits_on, number_below, number_of, with_digit};

/// A number with one more digit.
fn push_digit(n: u64, b: u8) -> Option<u64>
    ensures { result ≡ with_digit n b }
{
    if !b.is_ascii_digit() {
        return None;
    }
    n.checked_mul(10)?.checked_add(u64::from(b - 48))
}

/// The number that digits spell.
#[tactic(auto, using(std::proofs::lemmas::Grind::common_steps, crate::proofs::Digits::digits_more, crate::proofs::Digits::digits_all))]
fn read_digits(digits: &[u8]) -> Option<u64>
    ensures { result ≡ digits_on 0 digits.now }
{
    let mut n = 0u64;
    for b in digits {
        n = push_digit(n, *b)?;
    }
    Some(n)
}

/// A number below 2^64 in digits without a leading zero.
#[tactic(auto, unfolding(crate::specs::Numbers::number_of))]
pub fn read_number(digits: &[u8]) -> Option<u64>
    ensures { result ≡ number_of digits.now }
{
    match digits {
        [] => None,
        [b'0', _, ..] => None,
        _ => read_digits(digits),
    }
}

/// A number below a bound, in digits without a leading zero.
pub fn read_below(bound: u64, digits: &[u8]) -> Option<u64>
    ensures { result ≡ number_below bound digits.now }
{
    let n = read_number(digits)?;
    if n < bound { Some(n) } else { None }
}
