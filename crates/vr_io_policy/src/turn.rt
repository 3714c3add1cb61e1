//! Whose turn it is to give a place up.
ghost use Rattle.std.specs.Prelude.{◌≡◌};
ghost use Rattle.vr_io_policy.specs.Turns.{claim_of, first_turn, idle_turn, is_before, rank, turn_of, waiting_turn, waits_first};

use crate::guest::{Guest, WAIT_MILLIS};

/// After how many milliseconds without an answer a stream that waits for nothing goes before those that wait for their first one.
const LONG_MILLIS: u64 = 10_000;

/// Who wants a place.
#[derive(Clone, Copy, Debug, PartialEq, Eq)]
pub struct Newcomer {
    /// Whether it may be that of a member.
    pub near: bool,
    /// Whether more than half of the places have strangers that wait for their first answer.
    pub crowded: bool,
    /// The milliseconds of the clock.
    pub now: u64,
}

/// Why a place may be had, those that are had first first. A stranger is a stream that doesn't speak as a member.
#[derive(Clone, Copy, Debug, PartialEq, Eq)]
pub enum Turn {
    /// Nobody has it.
    Free,
    /// A stranger that was never answered, and waits for nothing.
    Useless,
    /// A stranger that waits for nothing, for ten seconds or more.
    Forgotten,
    /// A stranger that waits for its first answer, and can't be a member's, where more than half of the places have such ones.
    Crowding,
    /// A stranger that waits for nothing, for less than ten seconds.
    Idle,
    /// A stranger that waits for its first answer, and can't be a member's.
    Waiting,
    /// A stranger that may be that of a member, and waits to be heard.
    Awaited,
    /// A stranger that was answered and waits: only a newcomer that may be that of a member gets its place.
    Served,
}

/// The turn of a place, and since when its stream waits or doesn't.
#[derive(Clone, Copy, Debug, PartialEq, Eq)]
pub struct Claim {
    pub turn: Turn,
    pub since: u64,
}

impl Turn {
    // Its place in the order.
    fn rank(self) -> u8
        ensures { result ≡ rank self }
    {
        match self {
            Turn::Free => 0,
            Turn::Useless => 1,
            Turn::Forgotten => 2,
            Turn::Crowding => 3,
            Turn::Idle => 4,
            Turn::Waiting => 5,
            Turn::Awaited => 6,
            Turn::Served => 7,
        }
    }
}

impl Claim {
    /// Whether it comes before another one: by its turn, and of one turn the earlier one.
    #[tactic(auto, unfolding(crate::specs::Turns::is_before))]
    pub fn is_before(self, other: Claim) -> bool
        ensures { result ≡ is_before self other }
    {
        let (mine, theirs) = (self.turn.rank(), other.turn.rank());
        mine < theirs || (mine == theirs && self.since < other.since)
    }
}

/// Whether a guest is a stranger that waits for its first answer, and can't be that of a member.
pub fn waits_first(guest: &Option<Guest>, now: u64) -> bool
    ensures { result ≡ waits_first now guest.now }
{
    match guest {
        Some(guest) => {
            guest.speaks.is_none() && !guest.near && !guest.answered && guest.waits(now)
        }
        None => false,
    }
}

// The turn of a stranger that waits for its first answer, or to be heard.
fn first_turn(guest: &Guest, newcomer: Newcomer) -> Turn
    ensures { result ≡ first_turn newcomer guest.now }
{
    if guest.near {
        return Turn::Awaited;
    }
    if newcomer.crowded {
        Turn::Crowding
    } else {
        Turn::Waiting
    }
}

// The turn of a stranger that waits.
fn waiting_turn(guest: &Guest, newcomer: Newcomer) -> Option<Turn>
    ensures { result ≡ waiting_turn newcomer guest.now }
{
    if !guest.answered {
        return Some(first_turn(guest, newcomer));
    }
    if newcomer.near {
        Some(Turn::Served)
    } else {
        None
    }
}

// The turn of a stranger that waits for nothing.
fn idle_turn(guest: &Guest, now: u64) -> Turn
    ensures { result ≡ idle_turn now guest.now }
{
    if !guest.answered {
        return Turn::Useless;
    }
    if now.saturating_sub(guest.since) >= LONG_MILLIS {
        Turn::Forgotten
    } else {
        Turn::Idle
    }
}

// The turn of a guest, where it may have to give its place up: none of one that speaks as a member.
fn turn_of(guest: &Guest, newcomer: Newcomer) -> Option<Turn>
    ensures { result ≡ turn_of newcomer guest.now }
{
    if guest.speaks.is_some() {
        return None;
    }
    if guest.waits(newcomer.now) {
        return waiting_turn(guest, newcomer);
    }
    Some(idle_turn(guest, newcomer.now))
}

/// The claim to a place that a newcomer has, where it has one.
pub fn claim_of(place: &Option<Guest>, newcomer: Newcomer) -> Option<Claim>
    ensures { result ≡ claim_of newcomer place.now }
{
    let Some(guest) = place else {
        return Some(Claim {
            turn: Turn::Free,
            since: 0,
        });
    };
    let turn = turn_of(guest, newcomer)?;
    Some(Claim {
        turn,
        since: guest.since,
    })
}
