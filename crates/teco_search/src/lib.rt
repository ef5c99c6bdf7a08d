//! Search texts, and where they occur in a text that lies in two halves.
#![tactic(auto)]

mod anchor;
mod as_it_stands;
mod byte_set;
mod byte_table;
mod element;
mod frequency;
mod joined;
mod law;
mod line_end;
mod literal;
mod matching;
mod passing;
mod patience;
mod pattern;
mod places;
mod plain_bytes;
mod reading;
mod run;
mod search;
mod window;

pub use as_it_stands::{find_byte, find_exact, find_plain, is_plain};
pub use element::{Class, Element, Items, OneByte, SetItem};
pub use law::{literal_texts, occurrences, search_texts};
pub use line_end::{first_line_end, last_line_end};
pub use patience::{Endless, GivenUp, Patience};
pub use pattern::{Pattern, count, find, find_forward, matches_at};
