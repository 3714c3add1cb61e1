//! The line that bytes spell.
ghost use Rattle.std.specs.Prelude.{◌≡◌, None, Some, Err, IfOk};
ghost use Rattle.vr_lines.specs.Fits.{IsLineOf};
ghost use Rattle.vr_lines.specs.Grammar.{deliver_line, line_behind, line_words, parse};
ghost use Rattle.vr_lines.specs.Words.{words_left};
ghost use Rattle.vr_lines.specs.declared.parsing.LineFault.TheVariants as LineFault;

use crate::Line;
use crate::group::read_cluster;
use crate::member::read_member;
use crate::number::read_number;
use crate::request::read_request;
use crate::versions::line_limit;
use crate::words::{Words, is_word};
use std::alloc::{AllocError, Global};
use vr_base::Version;

/// Why bytes are no line.
#[derive(Clone, Copy, Debug, PartialEq, Eq)]
pub enum LineFault {
    /// They spell none.
    NotALine,
    NoMemory,
}

impl From<AllocError> for LineFault {
    ghost use Rattle.vr_lines.specs.declared.parsing.LineFault.TheVariants.{NoMemory};

    ghost from_gives = { λ _ fault. fault ≡ NoMemory };

    fn from(_error: AllocError) -> LineFault {
        LineFault::NoMemory
    }
}

/// `deliver X` after its first word.
fn read_deliver(words: Words<'_>) -> Option<Line>
    ensures { result ≡ deliver_line (words_left words.entry) }
{
    Some(Line::Deliver(read_number(words.only()?)?))
}

/// A line of this version by its first word and those after it: before there is a group, the one that makes it.
fn read_behind(
    alloc: Global,
    n: u8,
    word: &[u8],
    words: Words<'_>,
    version: Version,
) -> Result<Option<Line>, AllocError>
    ensures { IfOk result (λ line. line ≡ line_behind version n word.now (words_left words.entry)) }
{
    if n == 0 {
        if is_word(word, "cluster") {
            Ok(read_cluster(words))
        } else {
            Ok(None)
        }
    } else if is_word(word, "request") {
        read_request(alloc, n, words, version)
    } else if is_word(word, "deliver") {
        Ok(read_deliver(words))
    } else {
        Ok(read_member(n, word, words, version))
    }
}

#[tactic(auto, unfolding(crate::specs::Grammar::line_words))]
fn read_words(
    alloc: Global,
    n: u8,
    words: Words<'_>,
    version: Version,
) -> Result<Option<Line>, AllocError>
    ensures { IfOk result (λ line. line ≡ line_words version n (words_left words.entry)) }
{
    match words.first() {
        Some((word, words)) => read_behind(alloc, n, word, words, version),
        None => Ok(None),
    }
}

#[tactic(auto, unfolding(crate::specs::Grammar::parse))]
fn read_line(
    alloc: Global,
    n: u8,
    line: &[u8],
    version: Version,
) -> Result<Option<Line>, AllocError>
    ensures { IfOk result (λ read. read ≡ parse version n line.now) }
{
    if line.len() > line_limit(version) {
        return Ok(None);
    }
    read_words(alloc, n, Words::of(line), version)
}

/// The line that these bytes spell, without its end, for a group of `n` replicas of this version. Before the
/// first line, which is `Cluster`, `n` is 0, and the version is taken to be 1.
#[tactic(auto, using(std::proofs::lemmas::Grind::common_steps, crate::proofs::Fitting::parsed_fits))]
pub fn parse_line(alloc: Global, n: u8, line: &[u8], version: Version) -> Result<Line, LineFault>
    ensures line { IfOk result (λ l. parse version n line.now ≡ Some l) }
    ensures fits { IfOk result (λ l. IsLineOf version n l) }
    ensures fault { result ≡ Err LineFault.NotALine → parse version n line.now ≡ None }
{
    match read_line(alloc, n, line, version)? {
        Some(read) => Ok(read),
        None => Err(LineFault::NotALine),
    }
}
