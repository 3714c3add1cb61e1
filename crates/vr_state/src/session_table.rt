//! The map that holds the sessions, its clients ascending.
ghost use Rattle.std.specs.Prelude.{◌≡◌, [], ◌∷◌, ◌++◌, OnOk, OnErr};
ghost use Rattle.std.specs.List.{list_all};
ghost use Rattle.std.specs.Ordering.{nat_cmp};
ghost use Rattle.std.specs.FinMap.Entries.{put, is_sorted};
ghost use Rattle.vr_state.specs.Fitting.{outcome_fits};
ghost use Rattle.vr_state.specs.Finite.{without, IsMap};
ghost use Rattle.vr_state.specs.Sessions.{older, oldest};
ghost use Rattle.vr_state.specs.declared.session.Session.{Session};

use crate::Session;
use crate::session::outcome_fits;
use indexmap::IndexMap;
use vr_base::{NoMemory, Version};

/// The clients with their sessions.
pub type SessionTable = IndexMap<u64, Session>;

/// Gives the client this session, in place where it has one: nothing moves then, and no place is searched.
pub fn insert(table: &mut SessionTable, client: u64, session: Session) -> Result<(), NoMemory>
    requires { IsMap nat_cmp table.old.entries }
    ensures ok { OnOk result (table.new.entries ≡ put nat_cmp client session table.old.entries) }
    ensures err { OnErr result (table.new.entries ≡ table.old.entries) }
{
    if let Some(held) = table.get_mut(&client) {
        *held = session;
        return Ok(());
    }
    table.insert_sorted(client, session)?;
    Ok(())
}

/// Takes the client's session out.
pub fn remove(table: &mut SessionTable, client: u64)
    requires { IsMap nat_cmp table.old.entries }
    ensures { table.new.entries ≡ without nat_cmp client table.old.entries }
{
    let _session = table.shift_remove(&client);
}

/// The client of the session whose last op is least, of several the least client, with that op; `None` where there is
/// no session.
#[tactic(auto, unfolding(crate::specs::Sessions::oldest))]
pub fn oldest(table: &SessionTable) -> Option<(u64, u64)>
    ensures { result ≡ oldest table.now.entries }
{
    let mut found = None;
    for (client, session) in table.iter() {
        found = older(found, *client, session.op);
    }
    found
}

/// Whether all outcomes are of this version.
pub fn outcomes_fit(table: &SessionTable, version: Version) -> bool
    ensures { result ≡ list_all (λ e. outcome_fits version e.1.outcome) table.now.entries }
{
    for (_, session) in table.iter() {
        if !outcome_fits(&session.outcome, version) {
            return false;
        }
    }
    true
}

/// Of two clients with the last ops of their sessions the one with the lower op, the first where both are one.
fn older(found: Option<(u64, u64)>, client: u64, op: u64) -> Option<(u64, u64)>
    ensures { result ≡ older found client op }
{
    match found {
        None => Some((client, op)),
        Some((before, least)) => {
            if least <= op {
                Some((before, least))
            } else {
                Some((client, op))
            }
        }
    }
}

/// Whether the client stands above the last.
pub fn follows(table: &SessionTable, client: u64) -> bool
    requires { IsMap nat_cmp table.now.entries }
    ensures { (session : Session) → result ≡ is_sorted nat_cmp (table.now.entries ++ (client, session) ∷ []) }
{
    match table.last() {
        None => true,
        Some((last, _)) => *last < client,
    }
}

/// Puts a client that stands above the last at the end.
pub fn push(table: &mut SessionTable, client: u64, session: Session) -> Result<(), NoMemory>
    requires { IsMap nat_cmp (table.old.entries ++ (client, session) ∷ []) }
    ensures ok { OnOk result (table.new.entries ≡ table.old.entries ++ (client, session) ∷ []) }
{
    table.insert(client, session)?;
    Ok(())
}
