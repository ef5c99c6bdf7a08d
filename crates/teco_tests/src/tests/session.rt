//! Of teco_session: requests, one after another, and what is undone.
mod breaks;
mod exits;
mod failing_terminals;
pub(crate) mod history;
mod pages;
mod profiles;
pub(crate) mod random;
mod records;
mod refusals;
pub(crate) mod requests;
mod single_bytes;
