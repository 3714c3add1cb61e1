//! How a replica begins: of a new member, whose disk is formatted, and recovered from the disk of its member.
//!
//! - A new member: `new_value` makes the value with which it begins, `formatting` writes its disk, `new_member` does both.
//! - What a slot says: `looking` reads it, `finding` judges it, `opening` does so for the ops of the checkpoint and of the window.
//! - A recovery: `reopen` finds the value that opens, `wanted` leaves those of other versions alone, `begin` goes on from there: it loads, applies, and tells the others.
//! - `migrating` makes a file of version 1 one of version 2.
#![tactic(auto)]

mod begin;
mod finding;
mod formatting;
mod looking;
mod migrating;
mod new_member;
mod new_value;
mod opening;
mod reopen;
mod wanted;

pub use migrating::{migrate, migrate_any};
pub use new_member::{FreshFault, fresh};
pub use reopen::{NoValue, Refusal, recover, recover_any};
