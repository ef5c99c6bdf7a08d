//! The tests of all crates: tables of rows, and what no clause says.
#![tactic(auto)]

#[cfg(test)]
mod tests;
