//! Lines that speak of one replica.
ghost use Rattle.std.specs.Prelude.{◌≡◌};
ghost use Rattle.vr_lines.specs.Grammar.{call_of, damage_line, fuse_line, fused, lost_words, member_line, migrate_line, misdirect_line, misdirected, replica_word, sector_of, sector_words, stale_line, start_line, stop_line, tick_line, unread_line};
ghost use Rattle.vr_lines.specs.Words.{words_left};

use crate::number::{read_below, read_number};
use crate::words::{Words, is_word};
use crate::{Line, line_sectors};
use vr_base::Version;

/// A sector of a replica's disk.
#[derive(Clone, Copy)]
pub struct Place {
    pub replica: u8,
    pub sector: u32,
}

/// A replica of a group of `n`.
fn read_replica(n: u8, words: Words<'_>) -> Option<u8>
    ensures { result ≡ replica_word n (words_left words.entry) }
{
    Some(read_below(u64::from(n), words.only()?)? as u8)
}

/// `tick R` after its first word.
fn read_tick(n: u8, words: Words<'_>) -> Option<Line>
    ensures { result ≡ tick_line n (words_left words.entry) }
{
    Some(Line::Tick(read_replica(n, words)?))
}

/// `stop R` after its first word.
fn read_stop(n: u8, words: Words<'_>) -> Option<Line>
    ensures { result ≡ stop_line n (words_left words.entry) }
{
    Some(Line::Stop(read_replica(n, words)?))
}

/// `start R` after its first word.
fn read_start(n: u8, words: Words<'_>) -> Option<Line>
    ensures { result ≡ start_line n (words_left words.entry) }
{
    Some(Line::Start(read_replica(n, words)?))
}

/// `migrate R` after its first word.
fn read_migrate(n: u8, words: Words<'_>) -> Option<Line>
    ensures { result ≡ migrate_line n (words_left words.entry) }
{
    Some(Line::Migrate(read_replica(n, words)?))
}

/// The number of a call, from 1 to 1,000,000.
fn read_call(word: &[u8]) -> Option<u32>
    ensures { result ≡ call_of word.now }
{
    let call = read_below(1_000_001, word)?;
    if call == 0 { None } else { Some(call as u32) }
}

/// A fuse of these words.
fn read_fused(n: u8, r: &[u8], j: &[u8], code: &[u8]) -> Option<Line>
    ensures { result ≡ fused n r.now j.now code.now }
{
    let replica = read_below(u64::from(n), r)? as u8;
    let call = read_call(j)?;
    let code = read_number(code)?;
    Some(Line::Fuse {
        replica,
        call,
        code,
    })
}

/// `fuse R J CODE` after its first word.
fn read_fuse(n: u8, words: Words<'_>) -> Option<Line>
    ensures { result ≡ fuse_line n (words_left words.entry) }
{
    let (r, words) = words.first()?;
    let (j, words) = words.first()?;
    read_fused(n, r, j, words.only()?)
}

/// A sector that lines of this version speak of.
fn read_sector(word: &[u8], version: Version) -> Option<u32>
    ensures { result ≡ sector_of version word.now }
{
    Some(read_below(u64::from(line_sectors(version)), word)? as u32)
}

/// R and S.
fn read_place(n: u8, words: Words<'_>, version: Version) -> Option<Place>
    ensures { result ≡ sector_words version n (words_left words.entry) }
{
    let (r, words) = words.first()?;
    let s = words.only()?;
    let replica = read_below(u64::from(n), r)? as u8;
    let sector = read_sector(s, version)?;
    Some(Place { replica, sector })
}

/// `damage R S` after its first word.
fn read_damage(n: u8, words: Words<'_>, version: Version) -> Option<Line>
    ensures { result ≡ damage_line version n (words_left words.entry) }
{
    let Place { replica, sector } = read_place(n, words, version)?;
    Some(Line::Damage { replica, sector })
}

/// `stale R S` after its first word.
fn read_stale(n: u8, words: Words<'_>, version: Version) -> Option<Line>
    ensures { result ≡ stale_line version n (words_left words.entry) }
{
    let Place { replica, sector } = read_place(n, words, version)?;
    Some(Line::Stale { replica, sector })
}

/// `unread R S` after its first word.
fn read_unread(n: u8, words: Words<'_>, version: Version) -> Option<Line>
    ensures { result ≡ unread_line version n (words_left words.entry) }
{
    let Place { replica, sector } = read_place(n, words, version)?;
    Some(Line::Unread { replica, sector })
}

/// A misdirected write of these words.
fn read_misdirected(n: u8, r: &[u8], s: &[u8], t: &[u8], version: Version) -> Option<Line>
    ensures { result ≡ misdirected version n r.now s.now t.now }
{
    let replica = read_below(u64::from(n), r)? as u8;
    let sector = read_sector(s, version)?;
    let other = read_sector(t, version)?;
    if sector == other {
        None
    } else {
        Some(Line::Misdirect {
            replica,
            sector,
            other,
        })
    }
}

/// `misdirect R S T` after its first word.
fn read_misdirect(n: u8, words: Words<'_>, version: Version) -> Option<Line>
    ensures { result ≡ misdirect_line version n (words_left words.entry) }
{
    let (r, words) = words.first()?;
    let (s, words) = words.first()?;
    read_misdirected(n, r, s, words.only()?, version)
}

/// What becomes of a disk, by the first word and those after it.
fn read_lost(n: u8, word: &[u8], words: Words<'_>, version: Version) -> Option<Line>
    ensures { result ≡ lost_words version n word.now (words_left words.entry) }
{
    if is_word(word, "fuse") {
        read_fuse(n, words)
    } else if is_word(word, "damage") {
        read_damage(n, words, version)
    } else if is_word(word, "stale") {
        read_stale(n, words, version)
    } else if is_word(word, "unread") {
        read_unread(n, words, version)
    } else if is_word(word, "misdirect") {
        read_misdirect(n, words, version)
    } else {
        None
    }
}

/// A line of this version that speaks of one replica of a group of `n`, by its first word and those after it.
pub fn read_member(n: u8, word: &[u8], words: Words<'_>, version: Version) -> Option<Line>
    ensures { result ≡ member_line version n word.now (words_left words.entry) }
{
    if is_word(word, "tick") {
        read_tick(n, words)
    } else if is_word(word, "stop") {
        read_stop(n, words)
    } else if is_word(word, "start") {
        read_start(n, words)
    } else if is_word(word, "migrate") {
        read_migrate(n, words)
    } else {
        read_lost(n, word, words, version)
    }
}
