//! Of teco_step: command strings, what they type, and the code by which they end.
mod colons;
pub(crate) mod edits;
pub(crate) mod failed_searches;
mod lines;
pub(crate) mod operands;
pub(crate) mod search_forms;
pub(crate) mod searches;
pub(crate) mod texts;
pub(crate) mod values;
