//! A session again, from its first state and its records.
#![tactic(auto)]

mod beginning;
mod laws;
mod pruning;
mod quiet;
mod replaying;

pub use beginning::begun_session;
pub use laws::replay_laws;
pub use pruning::{pruning_laws, records_of};
pub use quiet::Quiet;
pub use replaying::{ReplayFault, replay, resume};
