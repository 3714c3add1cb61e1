//! The power of a shelf, which may fail at a call.
ghost use Rattle.std.specs.Prelude.{◌≡◌};
ghost use Rattle.vr_disk.specs.DiskState.{counted, judged};
ghost use Rattle.vr_embed.specs.Seen.{fate_of, verdict_of};

/// How long the power lasts.
#[derive(Clone, Copy)]
pub struct Power {
    /// After so many writes and syncs it fails at the next one, if it is to fail.
    pub left: Option<u64>,
    /// How many calls were made.
    pub calls: u64,
    /// It has failed: each call fails.
    pub failed: bool,
}

/// What becomes of a call.
pub enum Judged {
    Goes,
    Fails,
    Cuts,
}

impl Power {
    /// One more call.
    pub fn count(&mut self)
        ensures { fate_of self.new ≡ counted (fate_of self.old) }
    {
        self.calls = self.calls.saturating_add(1);
    }

    /// What becomes of a write or a sync.
    pub fn judge(&mut self) -> Judged
        ensures verdict { verdict_of result ≡ (judged (fate_of self.old)).verdict }
        ensures next { fate_of self.new ≡ (judged (fate_of self.old)).next }
    {
        self.calls = self.calls.saturating_add(1);
        if self.failed {
            return Judged::Fails;
        }
        if let Some(left) = self.left {
            if left == 0 {
                self.left = None;
                self.failed = true;
                return Judged::Cuts;
            }
            self.left = Some(left - 1);
        }
        Judged::Goes
    }
}
