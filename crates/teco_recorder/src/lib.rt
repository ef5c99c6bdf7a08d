//! The file that keeps a session: opened, gone on with, and written as each request is done.
#![tactic(auto)]

mod again;
mod fault;
mod open_file;
mod opening;
mod outputs;
mod recorder;
mod serving;

pub use again::HearsReplay;
pub use fault::OpenFault;
pub use open_file::OpenFile;
pub use opening::{Asked, Opened, open_session};
pub use recorder::Recorder;
pub use serving::serve_recorded;
