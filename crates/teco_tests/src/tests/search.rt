//! Of teco_search: search texts.
pub(crate) mod elements;
mod halves;
mod long_texts;
mod patience;
mod patterns;
