//! Readable sources of command strings: what a source stands for, and listings, which read back.
#![tactic(auto)]

mod laws;
mod layout;
mod lines;
mod notes;
mod placing;
mod reader;
mod words;
mod writer;

pub use laws::source_laws;
pub use lines::listing;
pub use placing::beginnings;
pub use reader::{Mode, ReaderFault, commands};
pub use writer::{Note, push_line};
