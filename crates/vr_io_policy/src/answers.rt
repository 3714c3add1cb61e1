//! Which answer is held back.
ghost use Rattle.std.specs.Prelude.{◌≡◌, ◌==◌, IfOk, None, length, map, not, replicate};
ghost use Rattle.std.specs.List.{list_any};
ghost use Rattle.vr_io_policy.specs.Answers.{RepeatsAreHeld, after, answered, is_recent, is_repeated, mark_at, noted, passes, place_after, same_answer};
ghost use Rattle.vr_io_policy.specs.Topics.{mark_of};

use crate::receiver::Receiver;
use crate::topic::{Topic, topic_of};
use std::alloc::{AllocError, Global};
use std::marker::Model;

/// How many of those that passed are remembered.
const PLACES: usize = 512;

/// For how many milliseconds the same doesn't pass again: a little less than there are between two ticks of a member, so that
/// what is asked for once a tick is answered.
const HELD_MILLIS: u64 = 90;

/// An answer, as far as it can be repeated.
#[derive(Clone, Copy, Debug)]
pub struct Answer<A> {
    pub topic: Topic,
    pub to: Receiver<A>,
}

/// An answer that passed, and when.
#[derive(Clone, Copy, Debug)]
pub struct Passed<A> {
    pub answer: Answer<A>,
    /// The milliseconds of a clock.
    pub at: u64,
}

/// The answers that passed last, of which the same doesn't pass again for 90 milliseconds.
#[derive(Drop)]
pub struct Answers<A> {
    places: Vec<Option<Passed<A>>>,
    // The mark of what has each place: these are looked through at each answer, and what has the places only where one is found.
    marks: Vec<u64>,
    next: usize,
}

impl<A> Model for Answers<A> {
    ghost use Rattle.std.specs.Prelude.{◌≡◌, map};
    ghost use Rattle.vr_io_policy.specs.Answers.{IsRemembered, Remembered, mark_at};

    ghost Value = { Remembered A };

    ghost view = { λ a. record { places = a.places.items; next = a.next } };

    ghost invariant = { λ a. IsRemembered {A = A} (record { places = a.places.items; next = a.next }) × (a.marks.items ≡ map mark_at a.places.items) };
}

impl<A: Copy + PartialEq> Answer<A> {
    // Whether it is about the same, and goes to the same receiver.
    fn is_same(&self, other: &Answer<A>) -> bool
        ensures { result ≡ same_answer A.eq self.now other.now }
    {
        self.topic.is_same(other.topic) && self.to.is_same(&other.to)
    }
}

// Whether the same passed, and less than 90 milliseconds ago.
fn is_recent<A: Copy + PartialEq>(place: &Option<Passed<A>>, answer: &Answer<A>, now: u64) -> bool
    ensures { result ≡ is_recent A.eq answer.now now place.now }
{
    match place {
        Some(passed) => {
            passed.answer.is_same(answer) && now.saturating_sub(passed.at) < HELD_MILLIS
        }
        None => false,
    }
}

fn is_mark(own: &u64, mark: u64) -> bool
    ensures { result ≡ (own.now == mark) }
{
    *own == mark
}

// The place that is taken after this one.
fn place_after(place: usize) -> usize
    ensures { result ≡ place_after place }
{
    if place > 0 { place - 1 } else { PLACES - 1 }
}

// Places that none has taken yet.
fn free_places<A: Copy>(alloc: Global) -> Result<Vec<Option<Passed<A>>>, AllocError>
    ensures { IfOk result (λ places. places.items ≡ replicate PLACES None) }
{
    let mut places = Vec::new(alloc);
    for _ in 0..PLACES {
        places.push(None)?;
    }
    Ok(places)
}

// The marks of places that none has taken yet.
fn no_marks(alloc: Global) -> Result<Vec<u64>, AllocError>
    ensures { IfOk result (λ marks. marks.items ≡ replicate PLACES 0) }
{
    let mut marks = Vec::new(alloc);
    marks.resize(PLACES, 0)?;
    Ok(marks)
}

impl<A: Copy + PartialEq> Answers<A> {
    /// It remembers none, in 512 places.
    pub fn new(alloc: Global) -> Result<Answers<A>, AllocError>
        ensures { IfOk result (λ a. a ≡ record { places = replicate PLACES None; next = 0 }) }
    {
        let places = free_places(alloc)?;
        let marks = no_marks(alloc)?;
        Ok(Answers {
            places,
            marks,
            next: 0,
        })
    }

    // Whether the mark of one that is remembered is this one.
    fn has_mark(&self, mark: u64) -> bool
        ensures { result ≡ list_any (λ own. own == mark) (map mark_at self.now.places) }
    {
        self.marks.iter().any(|own| is_mark(own, mark))
    }

    // Whether one of those that are remembered is the same, and passed less than 90 milliseconds ago.
    #[tactic(auto, unfolding(crate::specs::Answers::is_repeated))]
    fn has_recent(&self, answer: &Answer<A>, now: u64) -> bool
        ensures { result ≡ is_repeated A.eq answer.now now self.now.places }
    {
        self.places
            .iter()
            .any(|place| is_recent(place, answer, now))
    }

    // The same, which is seen by the marks in nearly all cases.
    #[tactic(auto, using(crate::proofs::Marks::none_by_mark))]
    fn holds(&self, answer: &Answer<A>, now: u64) -> bool
        ensures { result ≡ is_repeated A.eq answer.now now self.now.places }
    {
        if !self.has_mark(answer.topic.mark()) {
            return false;
        }
        self.has_recent(answer, now)
    }

    // It passes, and is remembered in the place of the one that passed longest ago.
    fn note(&mut self, passed: Passed<A>)
        ensures { self.new ≡ noted passed self.old }
    {
        self.places[self.next] = Some(passed);
        self.marks[self.next] = passed.answer.topic.mark();
        self.next = place_after(self.next);
    }

    // Whether an answer passes now: exactly where the same didn't in the last 90 milliseconds, as far as is remembered.
    fn lets_answer(&mut self, answer: Answer<A>, now: u64) -> bool
        ensures result { result ≡ not (is_repeated A.eq answer now self.old.places) }
        ensures new { self.new ≡ answered A.eq answer now self.old }
    {
        if self.holds(&answer, now) {
            return false;
        }
        self.note(Passed { answer, at: now });
        true
    }

    /// Whether a message to this receiver passes now. What is no answer does; an answer does exactly where the same didn't in the last 90
    /// milliseconds, as far as is remembered. What passes is remembered, and takes the place of the one that passed longest ago.
    pub fn lets(&mut self, bytes: &[u8], to: Receiver<A>, now: u64) -> bool
        ensures result { result ≡ passes A.eq bytes.now to now self.old }
        ensures new { self.new ≡ after A.eq bytes.now to now self.old }
    {
        let Some(topic) = topic_of(bytes) else {
            return true;
        };
        self.lets_answer(Answer { topic, to }, now)
    }
}

/// What passed is held back for 90 milliseconds, whatever else passes, as long as that is less than 512; all others pass.
/// It does nothing.
#[tactic(auto, using(crate::proofs::Holding::are_held))]
pub fn repeat_laws<A: PartialEq>()
    ensures { RepeatsAreHeld A.eq }
{}
