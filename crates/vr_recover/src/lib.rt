//! What a replica that starts knows of an op, by what the sectors of its slot read as.
#![tactic(auto)]

ghost use Rattle.std.specs.Prelude.{◌≡◌, IsTrue};
ghost use Rattle.vr_recover.specs.Verdict.{Denying, Naming, is_denial, tells, verdict_of};

mod readings;

pub use readings::{HeaderReading, PrepareReading, Verdict};
use vr_base::Mode;

// Whether a prepare that doesn't fit says, beside a valid header of something else, that the entry was never stored.
fn tells(mode: Mode, prepare: PrepareReading) -> bool
    ensures { result ≡ tells mode prepare }
{
    match (mode, prepare) {
        (Mode::Strict, _) => true,
        (Mode::Careful, PrepareReading::OtherEntry | PrepareReading::Blank) => true,
        (Mode::Careful, _) => false,
    }
}

/// What is known of an op, by what its header sector and its prepare read as, and by whether the superblock names its
/// header, in a file of this mode.
pub fn verdict(mode: Mode, header: HeaderReading, prepare: PrepareReading, named: bool) -> Verdict
    ensures table { result ≡ verdict_of mode header prepare named }

    // That the entry was never stored here is said only where a valid header of something else stands in its place, and
    // no prepare fits: never of a slot that can't be read. A careful file says it only beside what is whole, or zeros.
    ensures denial { IsTrue (is_denial result) → Denying mode header prepare }
    ensures naming { Naming named result }
{
    match (header, prepare) {
        (HeaderReading::Fits, PrepareReading::Fits) => Verdict::Here,
        (_, PrepareReading::Fits) => Verdict::Rewrite,
        (HeaderReading::Fits, _) => Verdict::Lost,
        (HeaderReading::Other, _) if tells(mode, prepare) && named => Verdict::Wanted,
        (HeaderReading::Other, _) if tells(mode, prepare) => Verdict::Nothing,
        _ if named => Verdict::Lost,
        _ => Verdict::Unknown,
    }
}
