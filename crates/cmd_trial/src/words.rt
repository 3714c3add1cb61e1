//! The words with which a member is started.
ghost use Rattle.std.specs.Prelude.{◌≡◌, [], ◌∷◌, ◌++◌, IfOk, OnOk};
ghost use Rattle.vr_edge.specs.Attaching.{texts_of};
ghost use Rattle.cmd_trial.specs.Told.{fresh_words, member_words, start_words, trial_of};

use crate::plan::Plan;
use std::alloc::{AllocError, Global};

/// Adds this word at the end. After an `Err`, want of memory, nothing is said of the words.
fn put_word(alloc: Global, words: &mut Vec<String>, word: &str) -> Result<(), AllocError>
    ensures { OnOk result (texts_of words.new.items ≡ texts_of words.old.items ++ word.now ∷ []) }
{
    words.push(String::from_str(alloc, word)?)?;
    Ok(())
}

/// Adds these words at the end, in order. After an `Err`, want of memory, nothing is said of the words.
#[tactic(auto, using(std::proofs::lemmas::Grind::common_steps, crate::proofs::Wording::put_more))]
fn put_words(alloc: Global, words: &mut Vec<String>, more: &Vec<String>) -> Result<(), AllocError>
    ensures { OnOk result (texts_of words.new.items ≡ texts_of words.old.items ++ texts_of more.now.items) }
{
    for word in more.iter() {
        put_word(alloc, words, word.as_str())?;
    }
    Ok(())
}

/// `node CLUSTER REPLICA FILE TURNS`: the plan's group, the member's number, the plan's `files` with that number at its end, and
/// `1000000`.
#[tactic(auto, unfolding(crate::specs::Told::member_words))]
fn member_words(alloc: Global, plan: &Plan, member: u8) -> Result<Vec<String>, AllocError>
    ensures { IfOk result (λ words. texts_of words.items ≡ member_words (trial_of plan.now) member) }
{
    let files = &plan.files;
    let node = String::from_str(alloc, "node")?;
    let cluster = plan.cluster.to_string(alloc)?;
    let replica = member.to_string(alloc)?;
    let file = format!(in alloc; "{files}{member}")?;
    let turns = String::from_str(alloc, "1000000")?;
    Ok(vec![in alloc; node, cluster, replica, file, turns]?)
}

/// The words with which a member is started: `node CLUSTER REPLICA FILE 1000000`, the addresses of all members, and `--fresh` after them
/// where it is made anew. FILE is the plan's `files` with the member's number at its end.
pub fn start_words(
    alloc: Global,
    plan: &Plan,
    member: u8,
    is_fresh: bool,
) -> Result<Vec<String>, AllocError>
    ensures { IfOk result (λ words. texts_of words.items ≡ start_words (trial_of plan.now) member is_fresh) }
{
    let mut words = member_words(alloc, plan, member)?;
    put_words(alloc, &mut words, &plan.peers)?;
    if is_fresh {
        put_word(alloc, &mut words, "--fresh")?;
    }
    Ok(words)
}
