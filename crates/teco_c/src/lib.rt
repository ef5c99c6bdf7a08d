//! The library for C: a handle that is closed while it is all zero, and a call for each request of a session.
//!
//! The header bindings/c/teco.h says for C what the contracts say here. No call but an open and a run asks for memory.
#![tactic(auto)]

mod calls;
mod changes;
mod files;
mod history;
mod sources;
mod state;
mod stops;
mod tokens;

use teco_ffi::{answers, halves, handle, kinds, room, stopper};
