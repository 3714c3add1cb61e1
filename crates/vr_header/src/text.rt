//! The texts of keys and values.
ghost use Rattle.std.specs.Prelude.{◌≡◌, ◌≤◌, IfOk, IsTrue, length};
ghost use Rattle.std.specs.List.{list_all};
ghost use Rattle.vr_header.specs.Text.{is_printable, is_text, text_of};

use std::alloc::{AllocError, Global};
use std::marker::Model;
use vr_base::ByteList;

/// From 1 to `LIMIT` bytes, each from 33 to 126.
#[derive(Debug, Drop, PartialEq, Eq)]
pub struct Text<const LIMIT: usize> {
    bytes: ByteList,
}

/// The text of a key, of 1 to 64 bytes, each from 33 to 126.
pub type Key = Text<64>;

/// The text of a value, of 1 to 3,000 bytes, each from 33 to 126; in version 1 it has at most 1,024.
pub type Value = Text<3000>;

impl<const LIMIT: usize> Model for Text<LIMIT> {
    ghost use Rattle.std.specs.Prelude.{ℕ, List, IsTrue};
    ghost use Rattle.vr_header.specs.Text.{is_text};

    ghost Value = { List ℕ };

    ghost view = { λ t. t.bytes };

    ghost invariant = { λ t. IsTrue (is_text LIMIT t.bytes) };

    ghost inverse = { λ bytes. record { bytes = bytes } };
}

/// Whether these are from 1 to `limit` bytes, each from 33 to 126.
#[tactic(auto, unfolding(crate::specs::Text::is_text))]
pub fn is_text(limit: usize, bytes: &[u8]) -> bool
    ensures { result ≡ is_text limit bytes.now }
{
    1 <= bytes.len() && bytes.len() <= limit && are_printable(bytes)
}

fn are_printable(bytes: &[u8]) -> bool
    ensures { result ≡ list_all is_printable bytes.now }
{
    bytes.iter().all(|b| 33 <= *b && *b <= 126)
}

impl<const LIMIT: usize> Text<LIMIT> {
    /// The text of these bytes, `None` exactly where they are none.
    pub fn read(alloc: Global, bytes: &[u8]) -> Result<Option<Text<LIMIT>>, AllocError>
        ensures { IfOk result (λ text. text ≡ text_of LIMIT bytes.now) }
    {
        if is_text(LIMIT, bytes) {
            Ok(Some(Text::from_bytes(alloc, bytes)?))
        } else {
            Ok(None)
        }
    }

    /// The text of these bytes.
    pub fn from_bytes(alloc: Global, bytes: &[u8]) -> Result<Text<LIMIT>, AllocError>
        requires { IsTrue (is_text LIMIT bytes.now) }
        ensures { IfOk result (λ text. text ≡ bytes.now) }
    {
        let bytes = ByteList::from_vec(Vec::from_slice(alloc, bytes)?);
        Ok(Text { bytes })
    }

    #[tactic(auto, using(crate::proofs::BodyLaws::text_limit))]
    pub fn as_slice(&self) -> &[u8]
        ensures bytes { result.now ≡ self.now }
        ensures text { IsTrue (is_text LIMIT self.now) }
        ensures limit { length self.now ≤ LIMIT }
    {
        self.bytes.as_slice()
    }

    /// A copy of the text.
    pub fn try_clone(&self, alloc: Global) -> Result<Text<LIMIT>, AllocError>
        ensures { IfOk result (λ copy. copy ≡ self.now) }
    {
        Text::from_bytes(alloc, self.as_slice())
    }
}
