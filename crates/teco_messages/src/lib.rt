//! What a place of a run and a code say, in words.
#![tactic(auto)]

mod place;
mod sentence;
mod spelling;
mod spot;
mod stop;
mod tokens;

pub use place::{letter, show_call, show_place, show_spot, text_under};
pub use sentence::{Limits, show_code, show_code_with_limits, show_reason};
pub use spelling::{spell, spell_byte, spell_token};
pub use spot::{Spot, line_end, line_start, spot_of};
pub use stop::show_stop;
pub use tokens::token;
