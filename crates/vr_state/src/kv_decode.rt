//! A machine read from its text.
ghost use Rattle.std.specs.Prelude.{◌≡◌, ℕ, suc, [], ◌∷◌, ◌++◌, Ok, IfOk, IfErr};
ghost use Rattle.std.specs.FinMap.Entries.{is_sorted};
ghost use Rattle.vr_state.specs.Finite.{byte_order, IsMap};
ghost use Rattle.vr_state.specs.Table.{read_on, IsOrNoMemory};
ghost use Rattle.vr_state.specs.Pairs.{pair_from, kv_decoded};

use crate::pair::{Pair, read_pair};
use crate::{StateFault, split_count};
use std::alloc::Global;
use vr_base::Seq;

/// The pairs of a machine's text, or the first fault.
#[tactic(auto, unfolding(crate::specs::Table::decoded))]
pub fn read_pairs(alloc: Global, bytes: &[u8]) -> Result<Seq<Pair>, StateFault>
    ensures pairs { IfOk result (λ pairs. kv_decoded bytes.now ≡ Ok pairs) }
    ensures fault { IfErr result (IsOrNoMemory (kv_decoded bytes.now)) }
{
    let (count, rest) = split_count(bytes, 128)?;
    read_all(alloc, count, rest)
}

/// So many pairs, and nothing after them.
fn read_all(alloc: Global, count: u16, bytes: &[u8]) -> Result<Seq<Pair>, StateFault>
    ensures pairs { IfOk result (λ pairs. read_on byte_order pair_from count [] bytes.now ≡ Ok pairs) }
    ensures fault { IfErr result (IsOrNoMemory (read_on byte_order pair_from count [] bytes.now)) }
{
    let mut pairs = Seq::from_vec(Vec::with_capacity(alloc, count as usize)?);
    let mut rest = bytes;
    for i in 0..count {
        rest = read_next(alloc, &mut pairs, rest)?;
    }
    if rest.is_empty() {
        return Ok(pairs);
    }
    Err(StateFault::Torn)
}

/// Reads one pair more, and gives the bytes after it.
#[tactic(auto, unfolding(crate::specs::Table::read_on))]
fn read_next<'a>(
    alloc: Global,
    pairs: &mut Seq<Pair>,
    bytes: &'a [u8],
) -> Result<&'a [u8], StateFault>
    requires { IsMap byte_order pairs.old }
    ensures is_map { IfOk result (λ _. IsMap byte_order pairs.new) }
    ensures rest { IfOk result (λ rest. (n : ℕ) → read_on byte_order pair_from (suc n) pairs.old bytes.now ≡ read_on byte_order pair_from n pairs.new rest.now) }
    ensures fault { IfErr result (λ fault. (n : ℕ) → IsOrNoMemory (read_on byte_order pair_from (suc n) pairs.old bytes.now) fault) }
{
    let Some((pair, rest)) = read_pair(alloc, bytes)? else {
        return Err(StateFault::Torn);
    };
    if !follows(pairs.as_slice(), &pair) {
        return Err(StateFault::NotSorted);
    }
    pairs.push(pair)?;
    Ok(rest)
}

/// Whether the pair's key stands above the last.
fn follows(pairs: &[Pair], pair: &Pair) -> bool
    requires { IsMap byte_order pairs.now }
    ensures { result ≡ is_sorted byte_order (pairs.now ++ pair.now ∷ []) }
{
    match pairs.last() {
        None => true,
        Some(last) => last.0.as_slice().cmp(&pair.0.as_slice()).is_lt(),
    }
}
