//! Replay of a schedule over a group of replicas: its lines are read from a source, and the outputs of the replicas are
//! written to a sink.
#![tactic(auto)]

mod command;
mod playing;
mod stop;

pub use command::replay;
use playing::Replay;
use stop::Stop;
