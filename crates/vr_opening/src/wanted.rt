//! Which values are left alone: those of a file of another version than the one that is asked for.
ghost use Rattle.std.specs.Prelude.{◌≡◌};
ghost use Rattle.vr_opening.specs.Recovering.{is_left, is_other};

use vr_base::Version;
use vr_super::Super;

/// `true` exactly where a version is asked for, and this is another one.
pub fn is_other(version: Version, wanted: &Option<Version>) -> bool
    ensures { result ≡ is_other wanted.now version }
{
    match wanted {
        Some(wanted) => version != *wanted,
        None => false,
    }
}

/// Whether a value is left alone: exactly where a version is asked for, and its file is of another one.
pub fn is_left(value: &Super, wanted: &Option<Version>) -> bool
    ensures { result ≡ is_left wanted.now value.now }
{
    is_other(value.fields().version, wanted)
}
