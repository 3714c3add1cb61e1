//! Rows that the prover works: schedules of a world and single steps, each with what it puts out; schedules of which all is proved that
//! `headline` asks; one in which a request takes effect although its client never hears of it; runs of a member's program as the laws on
//! members ask; and how many client numbers are few. No program stands on them. And calls that only tests make besides.
#![tactic(auto)]

mod called;
mod few;
mod pending;
mod running;
mod schedules;

pub use called::{links_over_streams, writes_a_block};
pub use few::so_many_are_few;
pub use pending::a_pending_request_takes_effect;
pub use running::{some_runs_answer, three_run_and_answer};
pub use schedules::{
    acknowledged_meets_all, careful_path_meets_all, dropped_meets_all, moved_meets_all,
    one_alone_meets_all, plain_path_meets_all, torn_prepare_meets_all,
};
