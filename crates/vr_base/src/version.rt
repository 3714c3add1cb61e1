//! The two versions of files, frames and entries.
ghost use Rattle.std.specs.Prelude.{◌≡◌, ◌≤◌, true};
ghost use Rattle.vr_base.specs.Versions.{body_limit, is_version, session_limit, value_limit};

use std::marker::Model;

/// The version of a file, of a frame or of an entry: 1 or 2.
#[derive(Clone, Copy, Debug, PartialEq, Eq)]
pub struct Version {
    number: u8,
}

impl Model for Version {
    ghost use Rattle.std.specs.Prelude.{ℕ, ◌≤◌};

    ghost Value = { ℕ };

    ghost view = { λ v. v.number };

    ghost invariant = { λ v. (1 ≤ v.number) × (v.number ≤ 2) };

    ghost inverse = { λ n. record { number = n } };
}

impl Version {
    /// The version of this number.
    pub const fn new(number: u8) -> Version
        requires least { 1 ≤ number }
        requires most { number ≤ 2 }
        ensures { result ≡ number }
    {
        Version { number }
    }

    /// Its number.
    pub fn get(self) -> u8
        ensures value { result ≡ self }
        ensures least { 1 ≤ self }
        ensures most { self ≤ 2 }
    {
        self.number
    }

    /// How many bytes a value has at most.
    pub fn value_limit(self) -> usize
        ensures value { result ≡ value_limit self }
        ensures most { result ≤ 3000 }
    {
        if self.number == 2 { 3000 } else { 1024 }
    }

    /// How many bytes the body of an entry has at most.
    pub fn body_limit(self) -> u32
        ensures value { result ≡ body_limit self }
        ensures most { result ≤ 3968 }
    {
        if self.number == 2 { 3968 } else { 1920 }
    }

    /// How many sessions a register leaves at most.
    pub fn session_limit(self) -> usize
        ensures { result ≡ session_limit self }
    {
        if self.number == 2 { 64 } else { 32 }
    }
}

/// Whether there is a version of this number.
pub fn is_version(number: u8) -> bool
    ensures { result ≡ is_version number }
{
    number == 1 || number == 2
}
