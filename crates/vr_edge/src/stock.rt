//! Room for texts and lists of them, made at first.
ghost use Rattle.std.specs.Prelude.{◌≡◌, ◌≤◌, ◌<◌, ◌-◌, [], ℕ, true, IfOk, IfSome, is_some, length, string_bytes, vec_capacity, vec_len};
ghost use Rattle.std.specs.List.{All};
ghost use Rattle.vr_edge.specs.Attaching.{texts_of};
ghost use Rattle.vr_edge.specs.Made.{are_made};

use std::alloc::{AllocError, Global};
use vr_base::{ByteList, Seq};

/// Empty lists, each with room for `most` items.
#[derive(Drop)]
pub struct Stock<T> {
    spare: Vec<Vec<T>>,
    most: usize,
    ghost made: { are_made most spare.items ≡ true },
}

impl<T: Drop> Stock<T> {
    /// So many lists, each with room for `most` items.
    #[tactic(auto, using(std::proofs::lemmas::Grind::common_steps, crate::proofs::Making::made_more))]
    fn new(alloc: Global, count: usize, most: usize) -> Result<Stock<T>, AllocError>
        ensures count { IfOk result (λ s. vec_len s.spare ≡ count) }
        ensures most { IfOk result (λ s. s.most ≡ most) }
    {
        let mut spare = Vec::new(alloc);
        for _at in 0..count {
            spare.push(Vec::with_capacity(alloc, most)?)?;
        }
        Ok(Stock { spare, most })
    }

    /// One of the lists, as long as there is one.
    #[tactic(auto, using(std::proofs::lemmas::Grind::common_steps, crate::proofs::Making::made_before, crate::proofs::Making::made_last))]
    fn take(&mut self) -> Option<Vec<T>>
        ensures some { 0 < vec_len self.old.spare → is_some result ≡ true }
        ensures empty { IfSome result (λ list. list.items ≡ []) }
        ensures room { IfSome result (λ list. self.old.most ≤ vec_capacity list) }
        ensures left { vec_len self.new.spare ≡ vec_len self.old.spare - 1 }
        ensures most { self.new.most ≡ self.old.most }
    {
        let mut list = self.spare.pop()?;
        list.clear();
        Some(list)
    }
}

/// How much there is room for.
#[derive(Clone, Copy, PartialEq, Eq)]
pub struct LogRoom {
    /// How many entries.
    pub entries: usize,
    /// How many texts in all of them.
    pub texts: usize,
    /// How many bytes each text has at most.
    pub bytes: usize,
}

/// Room for texts, and for lists of them.
#[derive(Drop)]
pub struct TextStock {
    texts: Stock<u8>,
    lists: Stock<ByteList>,
}

impl TextStock {
    ghost use Rattle.vr_edge.specs.Stocks.{Fits, FitsOne, IsStock, Took};

    /// For each entry a list of texts.
    pub fn new(alloc: Global, room: LogRoom) -> Result<TextStock, AllocError>
        ensures { IfOk result (IsStock room) }
    {
        Ok(TextStock {
            texts: Stock::new(alloc, room.texts, room.bytes)?,
            lists: Stock::new(alloc, room.entries, room.texts)?,
        })
    }

    /// A copy of the text, where there is room for one.
    pub fn copy(&mut self, text: &[u8]) -> Option<ByteList>
        ensures copy { IfSome result (λ copy. copy ≡ text.now) }
        ensures kept { FitsOne (length text.now) self.old → (is_some result ≡ true) × Took 1 0 self.old self.new }
    {
        let mut copy = self.texts.take()?;
        if text.len() > self.texts.most {
            return None;
        }
        copy.extend_from_slice(text).unwrap();
        Some(ByteList::from_vec(copy))
    }

    /// Copies of the texts, where there is room for them.
    pub fn copy_all(&mut self, words: &Vec<String>) -> Option<Seq<ByteList>>
        ensures copies { IfSome result (λ copies. copies ≡ texts_of words.now.items) }
        ensures kept { Fits (texts_of words.now.items) self.old → (is_some result ≡ true) × Took (vec_len words.now) 1 self.old self.new }
    {
        let mut copies = self.lists.take()?;
        for word in words.iter() {
            let copy = self.copy(word.as_bytes())?;
            copies.push(copy).ok()?;
        }
        Some(Seq::from_vec(copies))
    }
}
