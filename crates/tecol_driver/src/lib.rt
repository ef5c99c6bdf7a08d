//! A run of tecol, from the words of its command line to its status, over any files and streams.
#![tactic(auto)]

mod diffing;
mod fate;
mod line;
mod made;
mod parsing;
mod reading;
mod respelling;
mod running;
mod synonyms;
mod telling;

pub use line::{TecolLine, TecolMode};
pub use made::{Made, make};
pub use running::program;
