//! Of tecol_driver and what it stands on: which sentence a fault or a hint has and where it is told, how a listing is laid out, and what a
//! run of `tecol` writes and tells.
mod checks;
mod depths;
mod fixes;
mod listings;
mod made;
pub(crate) mod runs;
mod sentences;
mod sources;
