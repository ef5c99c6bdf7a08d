//! How the words of a program are read, and the command line of `teco`.
#![tactic(auto)]

mod assignment;
mod fault;
mod line;
mod options;
mod parsing;
mod refusal;
mod streams;
mod values;
mod words;

pub use assignment::{AssignedValue, Assignment};
pub use fault::{LineFault, fault_of_words};
pub use line::{Commands, Line, commands_on_pages, line_of, suffix_of};
pub use options::{MOST_STEPS, OptionRow, Takes};
pub(crate) use parsing::command_of;
pub use parsing::{Program, parsed};
pub(crate) use refusal::refusal_of;
pub use refusal::{Refusal, RefusedAs, faulty, refused_status};
pub use streams::{is_standard_input, is_standard_output};
pub use values::{flag_at, profile_at, text_at};
pub(crate) use values::{are_given, are_many, number_at, text_given, texts_at, texts_given};
pub use words::{CommandLine, line_in, not_text, words_given};
