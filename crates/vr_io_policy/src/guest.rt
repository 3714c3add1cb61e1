//! A stream that somebody else has made, as far as its place goes.
ghost use Rattle.std.specs.Prelude.{◌≡◌};
ghost use Rattle.vr_io_policy.specs.Guests.{answers, asks, comes, hears, speaks_as, speaks_for, waits, yields};

/// The bytes of a header: what brought fewer has asked nothing.
pub const HEADER: usize = 128;

/// For how many milliseconds a stream is taken to wait for its answer.
pub const WAIT_MILLIS: u64 = 3000;

/// A stream that others have made, by the milliseconds of a clock.
#[derive(Clone, Copy, Debug, PartialEq, Eq)]
pub struct Guest {
    /// Whether it may be that of a member: when it came, no stream spoke for one at the machine that it comes from.
    pub near: bool,
    /// The member as which it speaks: it brought a message of that one, and no other stream has since.
    pub speaks: Option<u8>,
    /// Whether anything was ever written to it.
    pub answered: bool,
    /// When it came; then when it was answered last, or had brought a whole header since, whichever was later.
    pub since: u64,
    /// How many bytes it has brought since its last answer, up to a header's.
    pub said: usize,
}

impl Guest {
    /// One that comes now, and may be that of a member or not.
    pub fn new(near: bool, now: u64) -> Guest
        ensures { result ≡ comes near now }
    {
        Guest {
            near,
            speaks: None,
            answered: false,
            since: now,
            said: 0,
        }
    }

    /// Whether it has brought as many bytes as a header since its last answer.
    pub fn asks(&self) -> bool
        ensures { result ≡ asks self.now }
    {
        self.said >= HEADER
    }

    /// So many bytes came of it. They begin its wait where it asks by them first; no others do.
    pub fn hear(&mut self, count: usize, now: u64)
        ensures { self.new ≡ hears count now self.old }
    {
        let asked = self.asks();
        self.said = self.said.saturating_add(count).min(HEADER);
        if !asked && self.asks() {
            self.since = now;
        }
    }

    /// Whether it speaks as this member.
    pub fn speaks_for(&self, member: u8) -> bool
        ensures { result ≡ speaks_for member self.now }
    {
        match self.speaks {
            Some(own) => own == member,
            None => false,
        }
    }

    /// It speaks as this member.
    pub fn speak(&mut self, member: u8)
        ensures { self.new ≡ speaks_as member self.old }
    {
        self.speaks = Some(member);
    }

    /// Another stream speaks as this member.
    pub fn yield_to(&mut self, member: u8)
        ensures { self.new ≡ yields member self.old }
    {
        if self.speaks_for(member) {
            self.speaks = None;
        }
    }

    /// Bytes were written to it: what it asked counts as answered.
    pub fn answer(&mut self, now: u64)
        ensures { self.new ≡ answers now self.old }
    {
        self.answered = true;
        self.since = now;
        self.said = 0;
    }

    /// Whether it waits: less than three seconds ago it came, or asked what isn't answered.
    pub fn waits(&self, now: u64) -> bool
        ensures { result ≡ waits now self.now }
    {
        let open = self.asks() || !self.answered;
        open && now.saturating_sub(self.since) < WAIT_MILLIS
    }
}
