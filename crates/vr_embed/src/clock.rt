//! The host's clock.
ghost use Rattle.std.specs.Prelude.{◌≡◌};
ghost use Rattle.vr_embed.specs.Story.{is_due, passed};

use vr_serve::TICK;

/// Milliseconds, as the host counts them.
#[derive(Clone, Copy)]
pub struct Clock {
    pub time: u64,
    /// When it ticked last.
    pub ticked: u64,
}

impl Clock {
    /// So many milliseconds go by. Whether a tick is due then, after which the next one is `TICK` away.
    pub fn pass(&mut self, milliseconds: u64) -> bool
        ensures due { result ≡ is_due self.old milliseconds }
        ensures passed { self.new ≡ passed self.old milliseconds }
    {
        self.time = self.time.saturating_add(milliseconds);
        if self.time.saturating_sub(self.ticked) < TICK {
            return false;
        }
        self.ticked = self.time;
        true
    }
}
