//! The log of a view, and how a replica takes it over.
ghost use Rattle.std.specs.Prelude.{◌≡◌, ◌<◌, ◌+◌, ◌^◌, ◌&&◌, drop, length, map, true, Some, slice_get, slice_set, slice_index_or, max};
ghost use Rattle.std.specs.List.{range_with_len};
ghost use Rattle.vr_base.specs.Bytes.{name_of};
ghost use Rattle.vr_base.specs.Replicas.{no_replicas};
ghost use Rattle.vr_header.specs.declared.part.Part.TheVariants.{Nothing};
ghost use Rattle.vr_header.specs.Spelling.{IsHeader};
ghost use Rattle.vr_volatile.specs.Ready.{HasWindow};
ghost use Rattle.vr_volatile.specs.Takes.{knows_at, taken_by};
ghost use Rattle.vr_msg.specs.Spelling.{AreHeaders};
ghost use Rattle.vr_rules.specs.Words.{fits, is_chain, is_newer, log_header, may_take, no_ackers, no_statements, replaced_by, taken, taken_part};

use crate::Replica;
use std::marker::Model;
use vr_base::Replicas;
use vr_header::{Header, HeaderList, Names, Part};
use vr_window::{Standing, has_header, valued};

/// The log of a view: its headers of the ops above `lo`, up to its head, and a commit number.
#[derive(Drop)]
pub struct Log<'a> {
    pub view: u32,
    pub lo: u64,
    pub headers: &'a HeaderList,
    pub head: u64,
    pub commit: u64,
}

impl<'a> Model for Log<'a> {
    ghost use Rattle.vr_msg.specs.Spelling.{AreHeaders};
    ghost use Rattle.vr_rules.specs.Words.{Log as Known};

    ghost Value = { Known };

    ghost view = { λ l. record {
      view = l.view;
      lo = l.lo;
      headers = l.headers.now;
      head = l.head;
      commit = l.commit;
    } };
}

// The header at a place.
fn header_in(headers: &[Header], at: usize) -> Header
    requires { at < length headers.now }
    ensures at { slice_get headers.now at ≡ Some result }
    ensures values { IsHeader result }
{
    valued(headers[at])
}

// The header after a place, if any.
fn next_in(headers: &[Header], at: usize) -> Option<Header>
    requires { at < length headers.now }
    ensures { slice_get headers.now (at + 1) ≡ result }
{
    headers.get(at + 1).copied()
}

// Whether the header after this place, if any, has the name of the one there as its parent.
#[tactic(auto, using(crate::proofs::Taken::links))]
fn follows(names: &Names, headers: &[Header], at: usize) -> bool
    requires { at < length headers.now }
    ensures chain { is_chain name_of (drop at headers.now) ≡ (result && is_chain name_of (drop (at + 1) headers.now)) }
    ensures values { AreHeaders (drop (at + 1) headers.now) → AreHeaders (drop at headers.now) }
{
    let header = header_in(headers, at);
    match next_in(headers, at) {
        Some(next) => next.parent == names.name_of(&header),
        None => true,
    }
}

/// Whether each header has the name of the one before it as its parent.
#[tactic(auto, using(crate::proofs::Taken::chains))]
pub(crate) fn is_chain(names: &Names, headers: &[Header]) -> bool
    ensures chain { result ≡ is_chain name_of headers.now }
    ensures values { result ≡ true → AreHeaders headers.now }
{
    for i in 0..headers.len() {
        if !follows(names, headers, i) {
            return false;
        }
    }
    true
}

// Keeps the name of the header at this place of a chain, which the one after it, if any, has as its parent.
fn keep_name_at(names: &mut Names, headers: &[Header], at: usize)
    requires chain { is_chain name_of headers.now ≡ true }
    requires within { at < length headers.now }
{
    let header = header_in(headers, at);
    if let Some(next) = next_in(headers, at) {
        names.keep(&header, next.parent);
    }
}

// Keeps the names of the headers of a chain, but for the last one's.
fn keep_names(names: &mut Names, headers: &[Header])
    requires { is_chain name_of headers.now ≡ true }
{
    for i in 0..headers.len() {
        keep_name_at(names, headers, i);
    }
}

/// A Part for which the log has this header.
fn replaced_by(header: Header, part: Part) -> Part
    ensures { result ≡ replaced_by header part }
{
    match part {
        Part::Here(known) => {
            if known.is(&header) {
                Part::Here(known)
            } else {
                Part::Wanted(header)
            }
        }
        Part::Lost(known) => {
            if known.is(&header) {
                Part::Lost(known)
            } else {
                Part::Wanted(header)
            }
        }
        Part::Wanted(_) | Part::Nothing => Part::Wanted(header),
        Part::Unknown => Part::Lost(header),
    }
}

impl Log<'_> {
    /// The header that it has at an op.
    pub(crate) fn header(&self, op: u64) -> Option<Header>
        ensures { result ≡ log_header self.now op }
    {
        if op <= self.lo {
            None
        } else {
            self.headers.get((op - (self.lo + 1)) as usize)
        }
    }

    /// What is known of an op once the log is taken over, where this was known of it: by a replica of
    /// this checkpoint, whose log is of this view.
    pub(crate) fn part(&self, checkpoint: u64, log_view: u32, op: u64, part: Part) -> Part
        ensures { result ≡ taken_by self.now checkpoint log_view op part }
    {
        if op <= checkpoint {
            part
        } else if op <= self.head {
            match self.header(op) {
                Some(header) => replaced_by(header, part),
                None => part,
            }
        } else if log_view < self.view {
            Part::Nothing
        } else {
            part
        }
    }
}

impl Replica {
    /// Whether the header of an op is known.
    fn knows_at(&self, op: u64) -> bool
        ensures { result ≡ knows_at op self.now }
    {
        has_header(&self.part_at(op))
    }

    /// Whether it is of a later view, or of this one, where it isn't started or the log is longer.
    pub fn is_newer(&self, log: &Log) -> bool
        requires { HasWindow self.now }
        ensures { result ≡ is_newer log.now self.now }
    {
        let standing = Standing {
            view: self.view,
            log_view: self.log_view,
            head: self.head(),
        };
        standing.is_behind(log.view, log.head)
    }

    #[tactic(auto, using(crate::proofs::Memory::bounds))]
    fn has_room(&self, log: &Log) -> bool
        requires { HasWindow self.now }
        ensures { result ≡ fits log.now self.now }
    {
        log.head <= self.window_end()
            && log.lo <= self.commit
            && self.commit <= log.head
            && (self.checkpoint < log.head || log.head == 0 || self.knows_at(log.head))
    }

    /// Whether it may take this log over.
    #[tactic(auto, unfolding(vr_rules::specs::Words::may_take))]
    pub fn may_take(&self, log: &Log) -> bool
        requires { HasWindow self.now }
        ensures may { result ≡ may_take name_of log.now self.now }
        ensures values { result ≡ true → AreHeaders log.now.headers }
    {
        self.is_newer(log) && self.has_room(log) && is_chain(&self.names, log.headers.as_slice())
    }

    /// Takes the log over at one place of the list.
    fn take_part(&mut self, log: &Log, at: usize)
        requires fits { self.old.first + at < 2 ^ 63 }
        requires within { at < length self.old.parts }
        ensures { self.new ≡ record self.old { parts = slice_set self.old.parts at (taken_by log.now self.old.checkpoint self.old.log_view (self.old.first + at) (slice_index_or self.old.parts at Nothing)) } }
    {
        let known = self.parts.get_or(at, Part::Nothing);
        let part = log.part(
            self.checkpoint,
            self.log_view,
            self.first + at as u64,
            known,
        );
        self.parts.replace(at, part);
    }

    /// How many ops it has Parts of.
    pub(crate) fn part_count(&self) -> usize
        ensures { result ≡ length self.now.parts }
    {
        self.parts.len()
    }

    /// Each Part becomes what it is in the log.
    #[tactic(auto, using(crate::proofs::Taken::places))]
    fn take_parts(&mut self, log: &Log)
        requires { HasWindow self.old }
        ensures { self.new ≡ record self.old { parts = map (taken_part log.now self.old) (range_with_len self.old.first (length self.old.parts)) } }
    {
        for i in 0..self.part_count() {
            self.take_part(log, i);
        }
    }

    /// Is of the log's view from now on, in which nothing is acknowledged yet.
    pub(crate) fn begin_log(&mut self, view: u32, commit: u64)
        requires { HasWindow self.old }
        ensures { self.new ≡ record self.old { view = view; log_view = view; idle = 0; ackers = no_ackers self.old; heard = no_replicas; statements = no_statements self.old; commit = max self.old.commit commit } }
    {
        self.view = view;
        self.log_view = view;
        self.idle = 0;
        self.ackers.fill(Replicas::none());
        self.heard = Replicas::none();
        self.statements.clear();
        self.commit = self.commit.max(commit);
    }

    // Keeps the names of the headers of a chain; contracts see nothing of it.
    pub(crate) fn keep_names(&mut self, headers: &[Header])
        requires { is_chain name_of headers.now ≡ true }
        ensures { self.new ≡ self.old }
    {
        keep_names(&mut self.names, headers);
    }

    /// Takes over the log of a view.
    #[tactic(auto, using(crate::proofs::Taken::takes))]
    pub fn take_over(&mut self, log: &Log)
        requires window { HasWindow self.old }
        requires chain { is_chain name_of log.now.headers ≡ true }
        ensures taken { self.new ≡ taken log.now self.old }
        ensures saved { self.new.saved ≡ self.old.saved }
    {
        self.take_parts(log);
        self.begin_log(log.view, log.commit);
        self.forget();
        self.keep_names(log.headers.as_slice());
    }
}
