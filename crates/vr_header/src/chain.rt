//! Chains of headers.
ghost use Rattle.std.specs.Prelude.{MatchResult};
ghost use Rattle.vr_header.specs.Chain.{IsChain, BreaksAt};

use crate::Header;
use vr_base::Sum;

/// Whether each header's parent is the name of the one before, and the first one's is `anchor`. An
/// error is the first place where it isn't. It is for programs that get a list of headers from
/// elsewhere; a replica walks its window in place (`vr_volatile`).
#[tactic(auto, using(std::proofs::lemmas::Grind::common_steps, crate::proofs::ChainLaws::whole))]
pub fn verify(anchor: &Sum, headers: &[Header]) -> Result<(), usize>
    ensures { MatchResult result (λ _. IsChain anchor.now headers.now) (BreaksAt anchor.now headers.now) }
{
    let mut before = *anchor;
    for (at, header) in headers.iter().enumerate() {
        if header.parent != before {
            return Err(at);
        }
        before = header.name();
    }
    Ok(())
}
