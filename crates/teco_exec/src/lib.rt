//! The run of a command string.
#![tactic(auto)]

mod blocks;
mod called;
mod conditions;
mod cursor;
mod dispatch;
mod flow;
mod jumps;
mod laws;
mod moves;
mod options;
mod outcome;
mod place;
mod remembered;
mod running;
mod seeking;
mod stepping;
mod stop;
mod tags;
mod texts;
mod watch;

pub use laws::{machine_laws, meaning_laws};
pub use options::{Options, Ran};
pub use outcome::Outcome;
pub use place::{Call, Place};
pub use running::{run, run_with};
pub use seeking::{Seeking, UntilFound, Wants};
pub use stop::{Never, Stop};
pub use teco_search::Patience;
pub use watch::{Unwatched, Watch, Watched};
