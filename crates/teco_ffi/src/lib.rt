//! What stands behind the calls of the library for C: the handles, the room of a caller, and what a call does to a session.
//!
//! It is a library of its own, since a static library is linked anew for each check.
#![tactic(auto)]

pub mod answers;
pub mod calls;
pub mod flag;
pub mod frames;
pub mod halves;
pub mod handle;
pub mod kinds;
pub mod laws;
pub mod lines;
pub mod parts;
pub mod places;
pub mod resuming;
pub mod room;
pub mod runs;
pub mod sources;
pub mod stopper;
pub mod token_kinds;
pub mod tokens;
