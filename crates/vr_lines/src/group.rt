//! The line that makes a group.
ghost use Rattle.std.specs.Prelude.{◌≡◌};
ghost use Rattle.vr_lines.specs.Grammar.{cluster_line, kind_words, size_of, version_words};
ghost use Rattle.vr_lines.specs.Words.{words_left};

use crate::Line;
use crate::number::read_below;
use crate::words::{Words, is_word};
use vr_base::{Kind, Mode, Version, is_size};

/// The version of a group's files, after their mode: 1, where nothing stands there.
fn read_version(words: Words<'_>) -> Option<Version>
    ensures { result ≡ version_words (words_left words.entry) }
{
    if words.is_end() {
        return Some(Version::new(1));
    }
    if is_word(words.only()?, "v2") {
        Some(Version::new(2))
    } else {
        None
    }
}

/// What a group's files are, after its size: strict and of version 1, where nothing stands there.
fn read_kind(words: Words<'_>) -> Option<Kind>
    ensures { result ≡ kind_words (words_left words.entry) }
{
    let Some((word, behind)) = words.first() else {
        return Some(Kind::of_mode(Mode::Strict));
    };
    if is_word(word, "careful") {
        let version = read_version(behind)?;
        return Some(Kind {
            mode: Mode::Careful,
            version,
        });
    }
    let version = read_version(words)?;
    Some(Kind {
        mode: Mode::Strict,
        version,
    })
}

/// N, from 2 to 6, and from 1 for files of version 2.
fn read_size(version: Version, word: &[u8]) -> Option<u8>
    ensures { result ≡ size_of version word.now }
{
    let n = read_below(256, word)? as u8;
    if is_size(version, n) { Some(n) } else { None }
}

/// `cluster N`, `cluster N careful`, `cluster N v2` and `cluster N careful v2` after the first word.
pub fn read_cluster(words: Words<'_>) -> Option<Line>
    ensures { result ≡ cluster_line (words_left words.entry) }
{
    let (size, words) = words.first()?;
    let kind = read_kind(words)?;
    let n = read_size(kind.version, size)?;
    Some(Line::Cluster { n, kind })
}
