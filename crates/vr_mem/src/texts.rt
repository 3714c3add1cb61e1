//! The three texts of which a disk in memory makes the names only where they are read.
ghost use Rattle.std.specs.Prelude.{◌≡◌, length};

use crate::{Mark, damage};
use std::alloc::{AllocError, Global};
use vr_base::{Sum, checksum, u64_at};
use vr_disk::{COPY_SIZE, FRONT_TEXT, Memo, Room, SECTOR_SIZE, Sector, ZEROS, front_sector};

/// How many bytes a text has: those of a copy of the superblock without its name. The texts of `vr_super` are as long, and a
/// shorter or longer one is never owed.
pub const TEXT_SIZE: usize = COPY_SIZE - (SECTOR_SIZE - FRONT_TEXT);

// Where the number of its sequence stands in a text.
const SEQUENCE_AT: usize = 0;

/// Which of the three texts.
#[derive(Clone, Copy, PartialEq, Eq)]
pub enum TextNumber {
    One,
    Two,
    Three,
}

/// Three texts. A sector that is owed is full of a byte that stands for one of them. What it is meant to hold is the name of
/// that text, with the text after it. All memory is taken at the start.
#[derive(Drop)]
pub struct Texts {
    one: Vec<u8>,
    two: Vec<u8>,
    three: Vec<u8>,
    ghost one_size: { length one.items ≡ 10224 },
    ghost two_size: { length two.items ≡ 10224 },
    ghost three_size: { length three.items ≡ 10224 },
}

impl TextNumber {
    ghost use Rattle.vr_mem.specs.Owed.{byte_of, number_of, stands_for};
    ghost use Rattle.vr_mem.specs.Seen.{marked};

    /// The byte that stands for the text of this number.
    pub fn byte(self) -> u8
        ensures { result ≡ byte_of self }
    {
        match self {
            TextNumber::One => 1,
            TextNumber::Two => 2,
            TextNumber::Three => 3,
        }
    }

    /// The number of the text that a byte stands for, or that byte with each bit turned. A sector that is owed is full of one
    /// of these six. So any other byte never comes, and is counted with 3 and 252.
    #[tactic(auto, unfolding(crate::specs::Owed::number_of))]
    pub fn of(byte: u8) -> TextNumber
        ensures { result ≡ number_of byte }
    {
        match byte {
            1 | 254 => TextNumber::One,
            2 | 253 => TextNumber::Two,
            _ => TextNumber::Three,
        }
    }

    /// Whether bytes with their mark stand for the text of this number.
    #[tactic(auto, unfolding(crate::specs::Owed::stands_for))]
    pub fn stands(self, mark: Mark, from: &[u8]) -> bool
        requires { length from.now ≡ 512 }
        ensures { result ≡ stands_for self (marked mark from.now) }
    {
        match mark {
            Mark::Plain => false,
            Mark::Owed => TextNumber::of(from[0]) == self,
        }
    }
}

impl Texts {
    ghost use Rattle.std.specs.Prelude.{IfSome, Some, true};
    ghost use Rattle.vr_base.specs.Bytes.{name_of};
    ghost use Rattle.vr_disk.specs.Fronts.{front};
    ghost use Rattle.vr_disk.specs.Sectors.{has};
    ghost use Rattle.vr_mem.specs.Owed.{KeepsOthers, content_by, meant, number_of, text_of};
    ghost use Rattle.vr_mem.specs.Seen.{marked};

    /// Three texts of zeros.
    pub fn new(alloc: Global) -> Result<Texts, AllocError> {
        Ok(Texts {
            one: Vec::from_elem(alloc, 0, TEXT_SIZE)?,
            two: Vec::from_elem(alloc, 0, TEXT_SIZE)?,
            three: Vec::from_elem(alloc, 0, TEXT_SIZE)?,
        })
    }

    /// The text of a number.
    #[tactic(auto, unfolding(crate::specs::Owed::text_of))]
    pub fn text(&self, number: TextNumber) -> &[u8]
        ensures text { result.now ≡ text_of self.now number }
        ensures size { length result.now ≡ 10224 }
    {
        match number {
            TextNumber::One => self.one.as_slice(),
            TextNumber::Two => self.two.as_slice(),
            TextNumber::Three => self.three.as_slice(),
        }
    }

    /// The number of this text, where it has one.
    pub fn find(&self, text: &[u8]) -> Option<TextNumber>
        ensures { IfSome result (λ number. text_of self.now number ≡ text.now) }
    {
        if self.text(TextNumber::One) == text {
            return Some(TextNumber::One);
        }
        if self.text(TextNumber::Two) == text {
            return Some(TextNumber::Two);
        }
        if self.text(TextNumber::Three) == text {
            return Some(TextNumber::Three);
        }
        None
    }

    /// From now on the text of this number is this one.
    #[tactic(auto, unfolding(crate::specs::Owed::text_of))]
    pub fn keep(&mut self, number: TextNumber, text: &[u8])
        requires { length text.now ≡ 10224 }
        ensures text { text_of self.new number ≡ text.now }
        ensures others { KeepsOthers self.old self.new number }
    {
        match number {
            TextNumber::One => self.one.copy_from_slice(text),
            TextNumber::Two => self.two.copy_from_slice(text),
            TextNumber::Three => self.three.copy_from_slice(text),
        }
    }

    // The sector that begins with the name of the text that a byte stands for, with each bit turned where the byte's are.
    #[tactic(auto, unfolding(crate::specs::Owed::content_by))]
    fn begun(&self, byte: u8, name: Sum) -> Sector
        requires { name.0 ≡ name_of (text_of self.now (number_of byte)) }
        ensures { result.bytes ≡ content_by self.now byte }
    {
        let sector = front_sector(name, self.text(TextNumber::of(byte)));
        if byte < 128 { sector } else { damage(&sector) }
    }

    // What a sector is meant to hold that is full of this byte.
    fn content(&self, byte: u8, memo: &mut Memo) -> Sector
        ensures { result.bytes ≡ content_by self.now byte }
    {
        let text = self.text(TextNumber::of(byte));
        let name = memo.name_of(Room::Value(u64_at(text, SEQUENCE_AT)), text);
        self.begun(byte, name)
    }

    /// What bytes with their mark stand for.
    pub fn meant(&self, mark: Mark, from: &[u8]) -> Sector
        requires { length from.now ≡ 512 }
        ensures { result.bytes ≡ meant self.now (marked mark from.now) }
    {
        match mark {
            Mark::Plain => {
                let mut sector = ZEROS;
                sector.bytes.copy_from_slice(from);
                sector
            }
            Mark::Owed => {
                let byte = from[0];
                self.begun(byte, checksum(self.text(TextNumber::of(byte))))
            }
        }
    }

    /// Copies what bytes with their mark stand for.
    pub fn copy(&self, mark: Mark, from: &[u8], memo: &mut Memo, to: &mut Sector)
        requires { length from.now ≡ 512 }
        ensures { to.new.bytes ≡ meant self.now (marked mark from.now) }
    {
        match mark {
            Mark::Plain => to.bytes.copy_from_slice(from),
            Mark::Owed => *to = self.content(from[0], memo),
        }
    }

    /// Whether bytes with their mark stand for these 512 bytes.
    pub fn is(&self, mark: Mark, from: &[u8], memo: &mut Memo, bytes: &[u8]) -> bool
        requires from { length from.now ≡ 512 }
        requires bytes { length bytes.now ≡ 512 }
        ensures { result ≡ has bytes.now (Some (meant self.now (marked mark from.now))) }
    {
        let byte = from[0];
        match mark {
            Mark::Plain => from == bytes,
            Mark::Owed => {
                let sector = self.content(byte, memo);
                sector.bytes.as_slice() == bytes
            }
        }
    }

    /// Whether bytes with their mark surely stand for the name of this text, and the text after it as far as it fits.
    pub fn begins(&self, mark: Mark, from: &[u8], text: &[u8]) -> bool
        requires { length from.now ≡ 512 }
        ensures { result ≡ true → meant self.now (marked mark from.now) ≡ front text.now }
    {
        match mark {
            Mark::Plain => false,
            Mark::Owed => {
                let byte = from[0];
                byte < 128 && self.text(TextNumber::of(byte)) == text
            }
        }
    }
}
