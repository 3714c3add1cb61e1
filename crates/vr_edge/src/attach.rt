//! An attach of a link, or of streams.
ghost use Rattle.std.specs.Prelude.{◌≡◌, ◌<◌, ◌+◌, [], ◌∷◌, IfSome, is_some, true, vec_len};
ghost use Rattle.vr_edge.specs.Attaching.{attached_by, texts_of};
ghost use Rattle.vr_edge.specs.Logs.{told};
ghost use Rattle.vr_edge.specs.Stocks.{Fits, Took};
ghost use Rattle.vr_edge.specs.Told.{Grows, GrowsOn};

use crate::TextStock;
use crate::log::Log;
use vr_base::{ByteList, Seq};

/// One attach of a link, or of streams.
#[derive(Drop, PartialEq, Eq)]
pub struct Attach {
    /// The own address that it was given.
    pub own: ByteList,
    /// Those of the peers.
    pub peers: Seq<ByteList>,
    /// Whether it went well.
    pub is_done: bool,
}

/// The entry of one attach, where there is room for its texts.
#[tactic(auto, using(std::proofs::lemmas::Grind::common_steps, crate::proofs::Taking::fits_first, crate::proofs::Taking::fits_rest, crate::proofs::Taking::took_both))]
fn attach_entry<E>(
    stock: &mut TextStock,
    own: &str,
    peers: &Vec<String>,
    given: &Result<(), E>,
) -> Option<Attach>
    ensures is { IfSome result (λ a. a ≡ attached_by own.now (texts_of peers.now.items) given.now) }
    ensures kept { Fits (own.now ∷ texts_of peers.now.items) stock.old → (is_some result ≡ true) × Took (vec_len peers.now + 1) 1 stock.old stock.new }
{
    Some(Attach {
        own: stock.copy(own.as_bytes())?,
        peers: stock.copy_all(peers)?,
        is_done: given.is_ok(),
    })
}

/// Tells one attach, where there is room for its texts.
pub fn note_attach<E>(
    log: &mut Log<Attach>,
    stock: &mut TextStock,
    own: &str,
    peers: &Vec<String>,
    given: &Result<(), E>,
)
    ensures told { Grows (told log.old.whole log.old.entries.items) (told log.new.whole log.new.entries.items) (attached_by own.now (texts_of peers.now.items) given.now ∷ []) }
    // one for which there is room is told, where each before was, and uses that room
    ensures kept { vec_len log.old.entries < log.old.room → Fits (own.now ∷ texts_of peers.now.items) stock.old
        → GrowsOn (told log.old.whole log.old.entries.items) (told log.new.whole log.new.entries.items) (attached_by own.now (texts_of peers.now.items) given.now ∷ [])
        × Took (vec_len peers.now + 1) 1 stock.old stock.new }
    ensures room { log.new.room ≡ log.old.room }
{
    let entry = attach_entry(stock, own, peers, given);
    log.note(entry);
}
