//! A desk that notes each change, and entries of changes, which are turned back and forth.
#![tactic(auto)]

mod change_list;
mod held;
mod laws;
mod recorder;
mod slot;
mod turning;

pub use change_list::ChangeList;
pub use laws::record_laws;
pub use recorder::Recorder;
pub use turning::{apply, apply_all, revert, revert_all, rewind};
