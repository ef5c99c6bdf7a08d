//! The debugger: its commands, and walks over the steps of a command string, forward and back.
#![tactic(auto)]

mod arguments;
mod around;
mod breaks;
mod command;
mod debugger;
mod ending;
mod finding;
mod help;
mod history;
mod kept;
mod line;
mod listing;
mod marks;
mod moving;
mod number;
mod opening;
mod part;
mod reading;
mod running;
mod saying;
mod serving;
mod showing;
mod sources;
mod stops;
mod testing;
mod typing;
mod verb;
mod view;
mod walk;
mod watching;

pub(crate) use command::{CommandFault, DebuggerCommand};
pub use line::DebuggerLine;
pub(crate) use opening::Opening;
pub(crate) use part::Part;
pub use running::program;
pub(crate) use sources::{Shown, SourceText};
pub use typing::is_typed;
pub(crate) use verb::{Counted, Plain, VERBS, VerbRow};
pub(crate) use walk::{Seen, Walk};
pub(crate) use watching::{Watch, Way};
