//! Of teco_exec: command strings, run on an editor.
mod block_forms;
pub(crate) mod breaks;
mod conditionals;
mod faults;
mod given_up;
mod iterations;
mod jumps;
mod line_ends;
mod page_lines;
mod page_turns;
mod places;
mod profiles;
mod seeking;
pub(crate) mod strings;
mod wide_forms;
