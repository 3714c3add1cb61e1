//! The text of a machine.
ghost use Rattle.std.specs.Prelude.{◌≡◌, ◌≤◌, ◌++◌, length, IfOk, OnOk};
ghost use Rattle.std.specs.List.{flat_map};
ghost use Rattle.vr_state.specs.Kv.{IsKv};
ghost use Rattle.vr_state.specs.Pairs.{pair_text, kv_text};

use crate::pair::{Pair, pair_length, write_pair};
use std::alloc::Global;
use vr_base::{ByteList, NoMemory};

/// The text of these pairs.
#[tactic(auto, using(std::proofs::lemmas::Grind::common_steps, crate::proofs::KvTexts::pairs_bound))]
pub fn encode_pairs(alloc: Global, pairs: &[Pair]) -> Result<ByteList, NoMemory>
    requires { IsKv pairs.now }
    ensures { IfOk result (λ text. text ≡ kv_text pairs.now) }
{
    let mut text = ByteList::from_vec(Vec::with_capacity(alloc, 2 + texts_length(pairs))?);
    write_pairs(&mut text, pairs)?;
    Ok(text)
}

/// Adds the text of these pairs at the end.
#[tactic(auto, using(std::proofs::lemmas::Grind::common_steps, crate::proofs::KvTexts::pairs_text_more, crate::proofs::KvTexts::pairs_text_all), unfolding(crate::specs::Table::table_text, vr_base::specs::Bytes::bytes16))]
fn write_pairs(text: &mut ByteList, pairs: &[Pair]) -> Result<(), NoMemory>
    requires { IsKv pairs.now }
    ensures { OnOk result (text.new ≡ text.old ++ kv_text pairs.now) }
{
    text.extend(&(pairs.len() as u16).to_be_bytes())?;
    for pair in pairs {
        write_pair(text, pair)?;
    }
    Ok(())
}

/// How many bytes the texts of these pairs have, one after the other.
#[tactic(auto, using(std::proofs::lemmas::Grind::common_steps, crate::proofs::KvTexts::pairs_bound, crate::proofs::KvTexts::pairs_length_more, crate::proofs::KvTexts::pairs_length_all))]
fn texts_length(pairs: &[Pair]) -> usize
    requires { IsKv pairs.now }
    ensures { result ≡ length (flat_map pair_text pairs.now) }
{
    let mut bytes = 0;
    for pair in pairs {
        bytes += pair_length(pair);
    }
    bytes
}
