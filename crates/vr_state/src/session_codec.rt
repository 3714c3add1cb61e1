//! The text of the sessions, written and read.
ghost use Rattle.std.specs.Prelude.{◌≡◌, ◌≤◌, ◌++◌, ℕ, suc, [], length, Ok, IfOk, IfErr, OnOk};
ghost use Rattle.std.specs.List.{flat_map};
ghost use Rattle.std.specs.Ordering.{nat_cmp};
ghost use Rattle.vr_state.specs.Finite.{IsMap};
ghost use Rattle.vr_state.specs.Sessions.{IsSessions};
ghost use Rattle.vr_state.specs.Table.{read_on, IsOrNoMemory};
ghost use Rattle.vr_state.specs.SessionTexts.{session_from, session_text, sessions_text, sessions_decoded};

use crate::session_table::{SessionTable, follows, push};
use crate::session_text::{read_session, session_length, write_session};
use crate::{SESSIONS, StateFault, split_count};
use std::alloc::Global;
use vr_base::{ByteList, NoMemory};

/// The text of these sessions.
#[tactic(auto, using(std::proofs::lemmas::Grind::common_steps, crate::proofs::Spelled::texts_bound))]
pub fn encode_table(alloc: Global, table: &SessionTable) -> Result<ByteList, NoMemory>
    requires { IsSessions table.now.entries }
    ensures { IfOk result (λ text. text ≡ sessions_text table.now.entries) }
{
    let mut text = ByteList::from_vec(Vec::with_capacity(alloc, 2 + texts_length(table))?);
    write_sessions(&mut text, table)?;
    Ok(text)
}

/// Adds the text of these sessions at the end.
#[tactic(auto, using(std::proofs::lemmas::Grind::common_steps), unfolding(crate::specs::Table::table_text, vr_base::specs::Bytes::bytes16))]
fn write_sessions(text: &mut ByteList, table: &SessionTable) -> Result<(), NoMemory>
    requires { IsSessions table.now.entries }
    ensures { OnOk result (text.new ≡ text.old ++ sessions_text table.now.entries) }
{
    text.extend(&(table.len() as u16).to_be_bytes())?;
    for (client, session) in table.iter() {
        write_session(text, *client, session)?;
    }
    Ok(())
}

/// How many bytes the texts of these sessions have, one after the other.
#[tactic(auto, using(std::proofs::lemmas::Grind::common_steps, crate::proofs::Spelled::texts_bound))]
fn texts_length(table: &SessionTable) -> usize
    requires { IsSessions table.now.entries }
    ensures { result ≡ length (flat_map session_text table.now.entries) }
{
    let mut bytes = 0;
    for (_, session) in table.iter() {
        bytes += session_length(session);
    }
    bytes
}

/// The sessions of a text, or the first fault.
#[tactic(auto, unfolding(crate::specs::Table::decoded))]
pub fn read_table(alloc: Global, bytes: &[u8]) -> Result<SessionTable, StateFault>
    ensures table { IfOk result (λ table. sessions_decoded bytes.now ≡ Ok table.entries) }
    ensures fault { IfErr result (IsOrNoMemory (sessions_decoded bytes.now)) }
{
    let (count, rest) = split_count(bytes, SESSIONS)?;
    read_all(alloc, count, rest)
}

/// So many sessions, and nothing after them.
fn read_all(alloc: Global, count: u16, bytes: &[u8]) -> Result<SessionTable, StateFault>
    ensures table { IfOk result (λ table. read_on nat_cmp session_from count [] bytes.now ≡ Ok table.entries) }
    ensures fault { IfErr result (IsOrNoMemory (read_on nat_cmp session_from count [] bytes.now)) }
{
    let mut table = SessionTable::with_capacity(alloc, count as usize)?;
    match read_on(alloc, &mut table, count, bytes) {
        Ok(()) => Ok(table),
        Err(fault) => {
            drop(table);
            Err(fault)
        }
    }
}

/// Reads so many sessions more, and nothing after them.
fn read_on(
    alloc: Global,
    table: &mut SessionTable,
    count: u16,
    bytes: &[u8],
) -> Result<(), StateFault>
    requires { IsMap nat_cmp table.old.entries }
    ensures table { OnOk result (read_on nat_cmp session_from count table.old.entries bytes.now ≡ Ok table.new.entries) }
    ensures fault { IfErr result (IsOrNoMemory (read_on nat_cmp session_from count table.old.entries bytes.now)) }
{
    let mut rest = bytes;
    for i in 0..count {
        rest = read_next(alloc, table, rest)?;
    }
    if rest.is_empty() {
        return Ok(());
    }
    Err(StateFault::Torn)
}

/// Reads one session more, and gives the bytes after it.
#[tactic(auto, unfolding(crate::specs::Table::read_on))]
fn read_next<'a>(
    alloc: Global,
    table: &mut SessionTable,
    bytes: &'a [u8],
) -> Result<&'a [u8], StateFault>
    requires { IsMap nat_cmp table.old.entries }
    ensures is_map { IfOk result (λ _. IsMap nat_cmp table.new.entries) }
    ensures rest { IfOk result (λ rest. (n : ℕ) → read_on nat_cmp session_from (suc n) table.old.entries bytes.now ≡ read_on nat_cmp session_from n table.new.entries rest.now) }
    ensures fault { IfErr result (λ fault. (n : ℕ) → IsOrNoMemory (read_on nat_cmp session_from (suc n) table.old.entries bytes.now) fault) }
{
    let Some(((client, session), rest)) = read_session(alloc, bytes)? else {
        return Err(StateFault::Torn);
    };
    if !follows(table, client) {
        return Err(StateFault::NotSorted);
    }
    push(table, client, session)?;
    Ok(rest)
}
