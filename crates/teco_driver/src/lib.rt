//! A run of the program, from the words of its command line to its status, over any files and streams.
#![tactic(auto)]

mod advice;
mod checked;
mod checking;
mod concluding;
mod editing;
mod fates;
mod giving;
mod host;
mod keeping;
mod library;
mod looking;
mod opening;
mod paging;
mod placing;
mod reading;
mod reporter;
mod reporting;
mod running;
mod session_lines;
mod several;
mod sources;
mod stopping;
mod values;
mod verdict;
mod word_source;

pub use checked::checked_laws;
pub(crate) use concluding::{NO_MEMORY, conclude, no_memory};
pub(crate) use giving::{Feed, edit_given, is_streamed};
pub use host::Host;
pub use paging::paging_laws;
pub use running::program;
pub(crate) use sources::{
    CommandsFault, ReadSource, ReadSources, commands_given, decline, source_name,
};
pub(crate) use values::put_values;
pub(crate) use word_source::WordSource;
