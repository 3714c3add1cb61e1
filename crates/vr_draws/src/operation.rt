//! The keys and values of requests that are drawn.
ghost use Rattle.std.specs.Prelude.{◌≡◌, IfOk};
ghost use Rattle.vr_draws.specs.Drawn.{key, value};

use std::alloc::{AllocError, Global};
use vr_header::{Key, Value};

/// The key of a drawn number: `k0` to `k7`.
#[tactic(auto, using(std::proofs::lemmas::Grind::common_steps, crate::proofs::Texts::key_text))]
pub fn key_of(alloc: Global, drawn: u64) -> Result<Key, AllocError>
    ensures { IfOk result (λ k. k ≡ key drawn) }
{
    let text = format!(in alloc; "k{}", drawn % 8)?;
    Key::from_bytes(alloc, text.as_bytes())
}

/// The value of a drawn number: `v0` to `v999`.
#[tactic(auto, using(std::proofs::lemmas::Grind::common_steps, crate::proofs::Texts::value_text))]
pub fn value_of(alloc: Global, drawn: u64) -> Result<Value, AllocError>
    ensures { IfOk result (λ v. v ≡ value drawn) }
{
    let text = format!(in alloc; "v{}", drawn % 1000)?;
    Value::from_bytes(alloc, text.as_bytes())
}
