//! What a check tells of commands: their strings, and the faults and hints of each, in sentences.
#![tactic(auto)]

mod calling;
mod checking;
mod cutting;
mod faults;
mod forms;
mod hinting;
mod left_out;
mod listing;
mod naming;
mod passing;
mod remarks;
mod reporting;
mod requests;
mod sentences;
mod spelling;

pub use calling::register_at;
pub use checking::{Advice, Flaws, check, check_over, check_text};
pub use forms::Form;
pub use remarks::{FaultIn, Hint, Remark, What, tells_fault};
pub use reporting::{report, report_part};
pub use sentences::show_remark;
pub use spelling::{is_misspelt, is_misspelt_text};
