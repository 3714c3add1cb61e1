//! What is missing in a run of Parts.
ghost use Rattle.std.specs.Prelude.{◌≡◌, position};
ghost use Rattle.vr_header.specs.Holes.{is_hole};

use crate::Part;

/// The place of the first Part with no known header; Here, Lost and Wanted know theirs. It is for
/// programs that get a list of Parts from elsewhere, as `verify`.
pub fn next_hole(parts: &[Part]) -> Option<usize>
    ensures { result ≡ position is_hole parts.now }
{
    parts.iter().position(is_hole)
}

fn is_hole(part: &Part) -> bool
    ensures { result ≡ is_hole part.now }
{
    matches!(part, Part::Unknown | Part::Nothing)
}
