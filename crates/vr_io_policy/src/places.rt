//! The places of streams that others have made, and which of them a newcomer gets.
ghost use Rattle.std.specs.Prelude.{◌≡◌, ◌<◌, ◌∷◌, [], IfOk, None, Some, length, map, option_map, replicate, slice_get, slice_set};
ghost use Rattle.vr_io_policy.specs.Guests.{answers, comes, hears, speaks_as, yields};
ghost use Rattle.vr_io_policy.specs.Places.{IsFirst, IsPlace, at_place, first_of, has_word, is_crowded, is_heard, newcomer, speaking};

use crate::guest::Guest;
use crate::turn::{Claim, Newcomer, claim_of, waits_first};
use std::alloc::{AllocError, Global};
use std::marker::Model;

/// The most streams at a time that others have made.
pub const PLACES: usize = 64;

/// More than the number of every member of a group.
const MEMBERS: u8 = 6;

/// The places of streams that others have made. Contracts see them as a list of what has each.
#[derive(Drop)]
pub struct Places {
    guests: Vec<Option<Guest>>,
}

impl Model for Places {
    ghost use Rattle.std.specs.Prelude.{List, Option};
    ghost use Rattle.vr_io_policy.specs.declared.guest.Guest.{Guest};

    ghost Value = { List (Option Guest) };

    ghost view = { λ p. p.guests.items };
}

/// A place that was found, and the claim to it.
#[derive(Clone, Copy, Debug, PartialEq, Eq)]
struct Found {
    at: usize,
    claim: Claim,
}

// Whether more than half of the places have strangers that wait for their first answer.
fn is_crowded(guests: &[Option<Guest>], now: u64) -> bool
    ensures { result ≡ is_crowded now guests.now }
{
    let waiting = guests
        .iter()
        .filter(|guest| waits_first(guest, now))
        .count();
    waiting > guests.len() / 2
}

// So many bytes came of what has a place.
fn hear(place: &mut Option<Guest>, count: usize, now: u64)
    ensures { place.new ≡ option_map (hears count now) place.old }
{
    if let Some(guest) = place {
        guest.hear(count, now);
    }
}

// Bytes were written to what has a place.
fn answer(place: &mut Option<Guest>, now: u64)
    ensures { place.new ≡ option_map (answers now) place.old }
{
    if let Some(guest) = place {
        guest.answer(now);
    }
}

// What has a place brought a message of this member.
fn speak(place: &mut Option<Guest>, member: u8)
    ensures { place.new ≡ option_map (speaks_as member) place.old }
{
    if let Some(guest) = place {
        guest.speak(member);
    }
}

// Another stream brought a message of this member.
fn yield_to(place: &mut Option<Guest>, member: u8)
    ensures { place.new ≡ option_map (yields member) place.old }
{
    if let Some(guest) = place {
        guest.yield_to(member);
    }
}

// None of these speaks as this member any more.
fn all_yield(guests: &mut [Option<Guest>], member: u8)
    ensures { guests.new ≡ map (option_map (yields member)) guests.old }
{
    for at in 0..guests.len() {
        yield_to(&mut guests[at], member);
    }
}

// Whether what has a place speaks as this member.
fn has_word(place: &Option<Guest>, member: u8) -> bool
    ensures { result ≡ has_word member place.now }
{
    match place {
        Some(guest) => guest.speaks_for(member),
        None => false,
    }
}

// Which of two places is had first, the one that was found so far or this one.
#[tactic(auto, unfolding(crate::specs::Places::first_of))]
fn first_of(found: Option<Found>, at: usize, claim: Option<Claim>) -> Option<Found>
    ensures { result ≡ first_of found at claim }
{
    let Some(claim) = claim else {
        return found;
    };
    let Some(first) = found else {
        return Some(Found { at, claim });
    };
    if claim.is_before(first.claim) {
        return Some(Found { at, claim });
    }
    found
}

// Which of the places is had first.
#[tactic(auto, using(std::proofs::lemmas::Grind::common_steps, crate::proofs::First::first_more))]
fn find_first(guests: &[Option<Guest>], newcomer: Newcomer) -> Option<Found>
    ensures { IsFirst newcomer guests.now (length guests.now) result }
{
    let mut found = None;
    // each place below `at` was looked at
    for at in 0..guests.len() {
        found = first_of(found, at, claim_of(&guests[at], newcomer));
    }
    found
}

impl Places {
    /// All are free.
    pub fn new(alloc: Global) -> Result<Places, AllocError>
        ensures { IfOk result (λ p. p ≡ replicate PLACES None) }
    {
        let mut guests = Vec::new(alloc);
        for _ in 0..PLACES {
            guests.push(None)?;
        }
        Ok(Places { guests })
    }

    /// Whether a stream speaks as this member.
    pub fn is_heard(&self, member: u8) -> bool
        ensures { result ≡ is_heard member self.now }
    {
        self.guests.iter().any(|place| has_word(place, member))
    }

    /// The place that a stream gets which comes now, and may be that of a member (`near`) or not; `None` where it gets none.
    #[tactic(auto, using(std::proofs::lemmas::Grind::common_steps, crate::proofs::First::no_place, crate::proofs::First::this_place))]
    pub fn place_for(&self, near: bool, now: u64) -> Option<usize>
        ensures { IsPlace (newcomer near now self.now) self.now result }
    {
        let guests = self.guests.as_slice();
        let newcomer = Newcomer {
            near,
            crowded: is_crowded(guests, now),
            now,
        };
        Some(find_first(guests, newcomer)?.at)
    }

    /// A stream that comes now has this place.
    pub fn come(&mut self, at: usize, near: bool, now: u64)
        ensures { self.new ≡ slice_set self.old at (Some (comes near now)) }
    {
        if let Some(place) = self.guests.get_mut(at) {
            *place = Some(Guest::new(near, now));
        }
    }

    /// The place is free.
    pub fn leave(&mut self, at: usize)
        ensures { self.new ≡ slice_set self.old at None }
    {
        if let Some(place) = self.guests.get_mut(at) {
            *place = None;
        }
    }

    /// So many bytes came of the stream at this place.
    pub fn hear(&mut self, at: usize, count: usize, now: u64)
        ensures { self.new ≡ at_place (hears count now) at self.old }
    {
        if let Some(place) = self.guests.get_mut(at) {
            hear(place, count, now);
        }
    }

    // No stream speaks as this member any more.
    fn yield_all(&mut self, member: u8)
        ensures { self.new ≡ map (option_map (yields member)) self.old }
    {
        all_yield(self.guests.as_mut_slice(), member);
    }

    // The stream at this place speaks as this member.
    fn speak_at(&mut self, at: usize, member: u8)
        ensures { self.new ≡ at_place (speaks_as member) at self.old }
    {
        if let Some(place) = self.guests.get_mut(at) {
            speak(place, member);
        }
    }

    // The stream at this place speaks as this member, and no other one does.
    fn speak_alone(&mut self, at: usize, member: u8)
        ensures { self.new ≡ at_place (speaks_as member) at (map (option_map (yields member)) self.old) }
    {
        self.yield_all(member);
        self.speak_at(at, member);
    }

    /// The stream at this place brought a message of this member: it speaks as that one, and no other stream does. A number that no
    /// member has counts for nothing.
    pub fn speak(&mut self, at: usize, member: u8)
        ensures { self.new ≡ speaking member at self.old }
    {
        if member < MEMBERS {
            self.speak_alone(at, member);
        }
    }

    /// Bytes were written to the stream at this place.
    pub fn answer(&mut self, at: usize, now: u64)
        ensures { self.new ≡ at_place (answers now) at self.old }
    {
        if let Some(place) = self.guests.get_mut(at) {
            answer(place, now);
        }
    }
}
