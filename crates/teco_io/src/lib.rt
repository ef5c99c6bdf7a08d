//! Where bytes come from and go to: sources, sinks and terminals.
#![tactic(auto)]

mod comparing;
mod copying;
mod fail_after;
mod input;
mod laws;
mod memory_sink;
mod memory_source;
mod memory_terminal;
mod reader_source;
mod sink;
mod source;
mod terminal;
mod writer_terminal;

pub use comparing::gives_just;
pub use fail_after::FailAfter;
pub use input::{InputFault, read_input};
pub use laws::screen_laws;
pub use memory_sink::MemorySink;
pub use memory_source::MemorySource;
pub use memory_terminal::MemoryTerminal;
pub use reader_source::ReaderSource;
pub use sink::Sink;
pub use source::{Source, SourceFault};
pub use terminal::{Terminal, TerminalFault};
pub use writer_terminal::WriterTerminal;
