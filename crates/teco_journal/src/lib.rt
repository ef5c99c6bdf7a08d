//! The file of a session: what it begins with, and what each request did, as lines that are read again, each with a check of all before it.
//! So it looks where the input has the lines `one` and `two`, and a string and an undo came:
//!
//!     teco session 1
//!     lines 0
//!     depth -
//!     input 8
//!     one
//!     two
//!
//!     0742fc23a4ee42a0 begun
//!     3098cc39e0ece123 run 1 Y$$
//!     9affe36b5c0a6787 undo
//!
//! Where the session reads its strings in the wide profile, the first line is `teco session 1 wide`.
#![tactic(auto)]

mod check;
mod entry;
mod head;
mod head_reader;
mod laws;
mod numbers;
mod reader;
mod record;
mod session_file;
mod start;
mod words;
mod writer;

pub use check::{CHECK_LENGTH, check_of};
pub use entry::Entry;
pub use head::{NewHead, new_head};
pub use head_reader::{Head, HeadFault, read_head};
pub use laws::{file_laws, journal_laws};
pub use reader::{Ending, Journal, read_journal};
pub use record::Record;
pub use session_file::{SessionFault, SessionFile, read_session};
pub use start::Start;
pub use writer::push_record;
