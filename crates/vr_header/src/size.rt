//! How many bytes a header and its body have.
ghost use Rattle.std.specs.Prelude.{◌≡◌, ◌≤◌};

use std::marker::Model;

/// How many bytes a header and its body have together, from 128 to 20,480.
#[derive(Clone, Copy, Debug, PartialEq, Eq)]
pub struct Size {
    bytes: u32,
}

impl Model for Size {
    ghost use Rattle.std.specs.Prelude.{ℕ, ◌≤◌};

    ghost Value = { ℕ };

    ghost view = { λ s. s.bytes };

    ghost invariant = { λ s. (128 ≤ s.bytes) × (s.bytes ≤ 20480) };

    ghost inverse = { λ n. record { bytes = n } };
}

impl Size {
    /// This many bytes.
    pub fn new(bytes: u32) -> Size
        requires least { 128 ≤ bytes }
        requires most { bytes ≤ 20480 }
        ensures { result ≡ bytes }
    {
        Size { bytes }
    }

    /// How many bytes.
    pub fn get(self) -> u32
        ensures value { result ≡ self }
        ensures least { 128 ≤ self }
        ensures most { self ≤ 20480 }
    {
        self.bytes
    }
}
