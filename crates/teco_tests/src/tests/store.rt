//! Of teco_store: the limits of its texts.
mod limits;
pub(crate) mod states;
