//! Serving a stream of commands: how it is cut and done, who hears of it, and how a run ends by it.
#![tactic(auto)]

mod alarm;
mod exchange;
mod explaining;
mod fate;
mod listener;
mod served;
mod serving;
mod splitter;

pub use alarm::{Alarm, Bounds, ClockAlarm, Manner, Settings, SystemTimer, Timer};
pub use explaining::{
    Telling, are_fillers, limits_after, line_of_end, line_of_left, lines_of_move, lines_of_run,
    next_number, outcome_of,
};
pub use fate::{Fate, ending, ending_of, output_name, said_of, said_why, status_of};
pub use listener::{Explainer, Listens, Silent};
pub use served::Served;
pub use serving::serve;
pub use splitter::{Asked, Splitter};
