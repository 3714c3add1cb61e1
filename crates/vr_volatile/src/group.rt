//! Which replica of a group leads a view, and the last view.
ghost use Rattle.std.specs.Prelude.{◌≡◌, ◌<◌};
ghost use Rattle.vr_msg.specs.Normal.{primary};

/// The last view: a greater number isn't one that a message may carry.
pub const LAST_VIEW: u32 = 4_294_967_294;

/// Which replica of `n` leads a view.
pub fn primary(n: u8, view: u32) -> u8
    requires { 0 < n }
    ensures value { result ≡ primary n view }
    ensures member { result < n }
{
    (view % u32::from(n)) as u8
}
