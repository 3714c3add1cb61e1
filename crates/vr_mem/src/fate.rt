//! Which calls go through.
ghost use Rattle.std.specs.Prelude.{◌≡◌, ◌==◌, ◌||◌, not};
ghost use Rattle.std.specs.List.{list_any};
ghost use Rattle.vr_disk.specs.DiskState.{judged, is_to_fail, counted};
ghost use Rattle.vr_mem.specs.Calls.{fate_of, call_verdict};

/// It lets so many writes and syncs through, and cuts the next one.
#[derive(Clone, Copy)]
pub struct MemFuse {
    pub calls: u64,
    pub code: u64,
}

/// What is to become of the next calls.
#[derive(Drop)]
pub struct MemFate {
    pub fuse: Option<MemFuse>,
    /// The calls of attach, write and sync made since the list was given.
    pub made: u64,
    /// The numbers of the calls that fail, counted from 1.
    pub failing: Vec<u64>,
    /// The fuse has cut a call: each later one fails.
    pub dead: bool,
}

/// What becomes of one call.
pub enum MemVerdict {
    Goes,
    Fails,
    Cuts(u64),
}

fn is_failing(failing: &[u64], number: u64) -> bool
    ensures { result ≡ list_any (λ n. n == number) failing.now }
{
    failing.iter().any(|n| *n == number)
}

impl MemFate {
    // Counts a call, and tells whether the list has it.
    fn count(&mut self) -> bool
        ensures fails { result ≡ is_to_fail (fate_of self.old) }
        ensures next { fate_of self.new ≡ counted (fate_of self.old) }
        ensures same { self.new.fuse ≡ self.old.fuse }
    {
        let number = self.made.saturating_add(1);
        self.made = number;
        is_failing(&self.failing, number)
    }

    /// What becomes of an attach: the fuse doesn't count it.
    pub fn judge_attach(&mut self) -> bool
        ensures goes { result ≡ not ((fate_of self.old).dead || is_to_fail (fate_of self.old)) }
        ensures next { fate_of self.new ≡ counted (fate_of self.old) }
    {
        let fails = self.count();
        !(self.dead || fails)
    }

    /// What becomes of a write or a sync.
    pub fn judge(&mut self) -> MemVerdict
        ensures verdict { call_verdict result ≡ (judged (fate_of self.old)).verdict }
        ensures next { fate_of self.new ≡ (judged (fate_of self.old)).next }
    {
        let fails = self.count();
        if self.dead {
            return MemVerdict::Fails;
        }
        if let Some(fuse) = self.fuse {
            if fuse.calls == 0 {
                self.fuse = None;
                self.dead = true;
                return MemVerdict::Cuts(fuse.code);
            }
            self.fuse = Some(MemFuse {
                calls: fuse.calls - 1,
                code: fuse.code,
            });
        }
        if fails {
            MemVerdict::Fails
        } else {
            MemVerdict::Goes
        }
    }
}
