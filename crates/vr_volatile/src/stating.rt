//! What a replica states of its log.
ghost use Rattle.std.specs.Prelude.{◌≡◌, ◌≤◌, ◌<◌, ◌+◌, ◌-◌, ◌++◌, IfOk, OnOk, None, drop, is_some, length, not, slice_index_or};
ghost use Rattle.std.specs.Option.{option_to_list};
ghost use Rattle.vr_header.specs.declared.part.Part.TheVariants.{Nothing};
ghost use Rattle.vr_volatile.specs.Ready.{HasWindow};
ghost use Rattle.vr_volatile.specs.States.{last_told, stated_by};
ghost use Rattle.vr_rules.specs.Replica.{is_nothing, parts_from, run_start, statement_of, trimmed, window_end};
ghost use Rattle.vr_rules.specs.Words.{stated};

use crate::Replica;
use std::alloc::{AllocError, Global};
use vr_base::Seq;
use vr_header::Part;
use vr_msg::{DvcBody, Statement};
use vr_window::{Window, run_length};

/// Whether something is known of the op.
fn is_told(part: &Part) -> bool
    ensures { result ≡ not (is_nothing part.now) }
{
    match part {
        Part::Here(_) | Part::Lost(_) | Part::Wanted(_) | Part::Unknown => true,
        Part::Nothing => false,
    }
}

/// Whether something is known of the op at a place.
#[tactic(auto, using(vr_window::proofs::Lists::past_is, vr_window::proofs::Lists::found_is))]
fn is_told_at(parts: &Window<Part>, at: usize) -> bool
    ensures { result ≡ not (is_nothing (slice_index_or parts.now at Nothing)) }
{
    match parts.item(at) {
        Some(part) => is_told(part),
        None => false,
    }
}

/// How many items a list has up to the last that isn't `Nothing`.
#[tactic(auto, using(crate::proofs::Stated::ends))]
fn last_told(parts: &Window<Part>) -> usize
    ensures value { result ≡ last_told parts.now }
    ensures within { result ≤ length parts.now }
{
    let mut end = parts.len();
    while end > 0 {
        if is_told_at(parts, end - 1) {
            return end;
        }
        end -= 1;
    }
    0
}

/// The items from a place on, up to the last that isn't `Nothing`.
#[tactic(auto, using(crate::proofs::Stated::tells))]
fn told_from(alloc: Global, parts: &Window<Part>, from: usize) -> Result<Seq<Part>, AllocError>
    ensures { IfOk result (λ ps. ps ≡ trimmed (drop from parts.now)) }
{
    let end = last_told(parts);
    let mut told = Seq::from_vec(Vec::with_capacity(alloc, end.saturating_sub(from))?);
    for i in from..end {
        told.push(parts.get_or(i, Part::Nothing))?;
    }
    Ok(told)
}

fn push_some(all: &mut Seq<Statement>, one: Option<Statement>) -> Result<(), AllocError>
    ensures { OnOk result (all.new ≡ all.old ++ option_to_list one) }
{
    match one {
        Some(statement) => all.push(statement),
        None => Ok(()),
    }
}

impl Replica {
    /// The op below the first of the known headers that reach the head without a hole.
    #[tactic(auto, using(crate::proofs::Memory::bounds), unfolding(vr_rules::specs::Replica::run, vr_window::specs::Runs::run_of))]
    pub(crate) fn run_start(&self) -> u64
        requires { HasWindow self.now }
        ensures value { result ≡ run_start self.now }
        ensures within { result ≤ window_end self.now }
    {
        let head = self.head();
        let count = (head + 1 - self.first) as usize;
        head.saturating_sub(run_length(&self.parts, count) as u64)
    }

    /// What is known of the ops from this one on, up to the last of which something is.
    pub(crate) fn told_from(&self, alloc: Global, op: u64) -> Result<Seq<Part>, AllocError>
        ensures { IfOk result (λ ps. ps ≡ trimmed (parts_from self.now op)) }
    {
        told_from(alloc, &self.parts, op.saturating_sub(self.first) as usize)
    }

    /// What it states of its log.
    #[tactic(auto, using(crate::proofs::Memory::bounds), unfolding(vr_rules::specs::Replica::statement_of))]
    pub(crate) fn statement(&self, alloc: Global) -> Result<Statement, AllocError>
        requires { HasWindow self.now }
        ensures { IfOk result (λ s. s ≡ statement_of self.now) }
    {
        let first = self.run_start() + 1;
        let parts = self.told_from(alloc, first)?;
        Ok(Statement {
            log_view: self.log_view,
            commit: self.commit,
            head: self.head(),
            body: DvcBody { first, parts },
        })
    }

    /// What a replica has stated for this view; its own statement is the present one.
    #[tactic(auto, using(vr_window::proofs::Lists::past_is, vr_window::proofs::Lists::found_is))]
    fn stated_by(&self, alloc: Global, i: u8) -> Result<Option<Statement>, AllocError>
        requires { HasWindow self.now }
        ensures { IfOk result (λ s. s ≡ stated_by self.now i) }
    {
        if i == self.index {
            return Ok(Some(self.statement(alloc)?));
        }
        match self.statements.as_slice().get(usize::from(i)) {
            Some(Some(statement)) => Ok(Some(statement.try_clone(alloc)?)),
            _ => Ok(None),
        }
    }

    /// What the replicas have stated for this view, with its own statement, in their order.
    #[tactic(auto, using(crate::proofs::Stated::alls), unfolding(vr_rules::specs::Words::stated))]
    pub fn stated(&self, alloc: Global) -> Result<Seq<Statement>, AllocError>
        requires { HasWindow self.now }
        ensures { IfOk result (λ ss. ss ≡ stated self.now) }
    {
        let mut all = Seq::new(alloc);
        for i in 0..self.n() {
            let one = self.stated_by(alloc, i)?;
            push_some(&mut all, one)?;
        }
        Ok(all)
    }

    /// Whether a replica has stated for this view; this one always has.
    #[tactic(auto, using(vr_window::proofs::Lists::past_is, vr_window::proofs::Lists::found_is))]
    fn has_stated(&self, i: u8) -> bool
        ensures { result ≡ is_some (stated_by self.now i) }
    {
        if i == self.index {
            return true;
        }
        match self.statements.as_slice().get(usize::from(i)) {
            Some(Some(_)) => true,
            _ => false,
        }
    }

    /// How many replicas have stated for this view, this one among them.
    #[tactic(auto, using(crate::proofs::Stated::counts))]
    pub fn stated_count(&self) -> usize
        ensures { result ≡ length (stated self.now) }
    {
        let mut count = 0;
        for i in 0..self.n() {
            if self.has_stated(i) {
                count += 1;
            }
        }
        count
    }
}
