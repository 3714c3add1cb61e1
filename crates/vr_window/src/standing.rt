//! How far a replica has come, and which logs are newer.
ghost use Rattle.std.specs.Prelude.{◌≡◌};
ghost use Rattle.vr_window.specs.Newer.{is_behind};

/// How far a replica has come: the view that it is in, the view whose log it has, and the op at which that log ends.
#[derive(Clone, Copy)]
pub struct Standing {
    pub view: u32,
    pub log_view: u32,
    pub head: u64,
}

impl Standing {
    /// Whether a log is newer, by its view and the op at which it ends: of a later view, or of this one, where none was begun or the log is
    /// longer.
    pub fn is_behind(&self, view: u32, head: u64) -> bool
        ensures { result ≡ is_behind self.now view head }
    {
        self.view < view
            || (view == self.view
                && (self.log_view < view || (view == self.log_view && self.head < head)))
    }
}
