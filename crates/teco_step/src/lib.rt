//! What each command does to a desk, to the arguments and to a terminal, and one step of a token.
#![tactic(auto)]

mod case;
mod control;
mod decimal;
mod edit;
mod failure;
mod joining;
mod laws;
mod line;
mod next;
mod number_laws;
mod page_searching;
mod pages;
mod registers;
mod replacing;
mod searching;
mod step;
mod taking;
mod typing;
mod value;

pub use failure::{Failure, next_of};
pub use laws::effect_laws;
pub use line::line_place;
pub use next::{Context, Next, Setting, Work};
pub use number_laws::decimal_laws;
pub use step::step_token;
